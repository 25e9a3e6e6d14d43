//! Values that are whole numbers of the machine's types.

ghost use Rattle.std.specs.Prelude.{pos, ◌^◌, ◌≤ℤ◌, ◌<ℤ◌, FitsSigned};
ghost use Rattle.std.specs.Int.{w64};
ghost use Rattle.json5_types.specs.ValueMeanings.{value_of};
ghost use Rattle.json5_types.specs.ValueKinds.{ReadsWhole, IsBelow};

use crate::value::Value;

impl Value {
    /// Returns the whole number, if it is one from 0 to `u64::MAX`. A decimal such as `80.0` is none.
    ///
    /// ```text
    /// settings.get("port")?.as_u64()    // Some(80) of `{port: 80}`, None of `{port: -1}`
    /// ```
    pub fn as_u64(&self) -> Option<u64>
        ensures { ReadsWhole pos (IsBelow (2 ^ 64)) (value_of self.now) result }
    {
        let number = self.as_u128()?;
        u64::try_from(number).ok()
    }

    /// Returns the whole number, if it is one from `i64::MIN` to `i64::MAX`.
    ///
    /// ```text
    /// settings.get("offset")?.as_i64()    // Some(-7) of `{offset: -7}`
    /// ```
    pub fn as_i64(&self) -> Option<i64>
        ensures { ReadsWhole (λ number. number) (FitsSigned w64) (value_of self.now) result }
    {
        let number = self.as_i128()?;
        i64::try_from(number).ok()
    }

    /// Returns the whole number, if it is one from 0 on. Each that is read is at most `u128::MAX`.
    ///
    /// ```text
    /// settings.get("id")?.as_u128()
    /// ```
    pub fn as_u128(&self) -> Option<u128>
        ensures { ReadsWhole pos (λ z. pos 0 ≤ℤ z) (value_of self.now) result }
    {
        self.as_whole()?.as_u128()
    }

    /// Returns the whole number, if it is one up to `i128::MAX`. Each that is read is at least `i128::MIN`.
    ///
    /// ```text
    /// settings.get("balance")?.as_i128()
    /// ```
    pub fn as_i128(&self) -> Option<i128>
        ensures { ReadsWhole (λ number. number) (λ z. z <ℤ pos (2 ^ 127)) (value_of self.now) result }
    {
        self.as_whole()?.as_i128()
    }
}
