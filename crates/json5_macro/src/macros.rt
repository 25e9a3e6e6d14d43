//! `json5!`, after the kit's `json!`.

/// Makes a value of a literal: a `Result<Value>`.
///
/// An element or a member's value is `null`, an array, an object, or an expression of a type that has `ToValue`. One that begins
/// with a bracket or a brace stands in parentheses, as `(values[0])`. A key is an identifier, a string, or an expression of
/// type `&str` in parentheses. A last comma may stand. Of equal keys all are kept, as they are where a document is read.
///
/// ```text
/// json5!(in alloc; {server: {port: 80}, tags: ["a", "b"], "on-line": true, note: null, size: (text.len())})?
/// ```
#[macro_export]
macro_rules! json5 {
    (in $alloc:expr; $($value:tt)+) => {{
        let alloc = $alloc;
        let built: std::result::Result<$crate::Value, $crate::Error> = 'json5: {
            Ok($crate::json5_internal!(alloc 'json5; $($value)+))
        };
        built
    }};
    ($($rest:tt)*) => {
        compile_error!("`json5!` takes an allocator first: write `json5!(in alloc; [1, 2])?`")
    };
}

/// The parts of `json5!`.
#[macro_export]
macro_rules! json5_internal {
    // `?`, which leaves the block `$out` and not the caller's function.
    (@try $out:lifetime $step:expr) => {
        match $step {
            Ok(done) => done,
            Err(refused) => break $out Err(refused),
        }
    };

    // The elements of an array.
    (@array $alloc:ident $out:lifetime $list:ident) => {};
    (@array $alloc:ident $out:lifetime $list:ident null $(, $($rest:tt)*)?) => {
        let item = $crate::Value::Null;
        $crate::json5_internal!(@try $out $crate::list_push(&mut $list, item));
        $crate::json5_internal!(@array $alloc $out $list $($($rest)*)?);
    };
    (@array $alloc:ident $out:lifetime $list:ident [$($inner:tt)*] $(, $($rest:tt)*)?) => {
        let item = $crate::json5_internal!($alloc $out; [$($inner)*]);
        $crate::json5_internal!(@try $out $crate::list_push(&mut $list, item));
        $crate::json5_internal!(@array $alloc $out $list $($($rest)*)?);
    };
    (@array $alloc:ident $out:lifetime $list:ident {$($inner:tt)*} $(, $($rest:tt)*)?) => {
        let item = $crate::json5_internal!($alloc $out; {$($inner)*});
        $crate::json5_internal!(@try $out $crate::list_push(&mut $list, item));
        $crate::json5_internal!(@array $alloc $out $list $($($rest)*)?);
    };
    (@array $alloc:ident $out:lifetime $list:ident $next:expr $(, $($rest:tt)*)?) => {
        let item = $crate::json5_internal!($alloc $out; $next);
        $crate::json5_internal!(@try $out $crate::list_push(&mut $list, item));
        $crate::json5_internal!(@array $alloc $out $list $($($rest)*)?);
    };

    // The members of an object: first a key, and then its value.
    (@object $alloc:ident $out:lifetime $fields:ident) => {};
    (@object $alloc:ident $out:lifetime $fields:ident $key:ident : $($rest:tt)+) => {
        $crate::json5_internal!(@member $alloc $out $fields (stringify!($key)) $($rest)+);
    };
    (@object $alloc:ident $out:lifetime $fields:ident $key:tt : $($rest:tt)+) => {
        $crate::json5_internal!(@member $alloc $out $fields ($key) $($rest)+);
    };
    (@member $alloc:ident $out:lifetime $fields:ident ($key:expr) null $(, $($rest:tt)*)?) => {
        let member = $crate::Value::Null;
        $crate::json5_internal!(@try $out $crate::object_put(&mut $fields, $alloc, $key, member));
        $crate::json5_internal!(@object $alloc $out $fields $($($rest)*)?);
    };
    (@member $alloc:ident $out:lifetime $fields:ident ($key:expr) [$($inner:tt)*] $(, $($rest:tt)*)?) => {
        let member = $crate::json5_internal!($alloc $out; [$($inner)*]);
        $crate::json5_internal!(@try $out $crate::object_put(&mut $fields, $alloc, $key, member));
        $crate::json5_internal!(@object $alloc $out $fields $($($rest)*)?);
    };
    (@member $alloc:ident $out:lifetime $fields:ident ($key:expr) {$($inner:tt)*} $(, $($rest:tt)*)?) => {
        let member = $crate::json5_internal!($alloc $out; {$($inner)*});
        $crate::json5_internal!(@try $out $crate::object_put(&mut $fields, $alloc, $key, member));
        $crate::json5_internal!(@object $alloc $out $fields $($($rest)*)?);
    };
    (@member $alloc:ident $out:lifetime $fields:ident ($key:expr) $value:expr $(, $($rest:tt)*)?) => {
        let member = $crate::json5_internal!($alloc $out; $value);
        $crate::json5_internal!(@try $out $crate::object_put(&mut $fields, $alloc, $key, member));
        $crate::json5_internal!(@object $alloc $out $fields $($($rest)*)?);
    };

    // A value.
    ($alloc:ident $out:lifetime; null) => {
        $crate::Value::Null
    };
    ($alloc:ident $out:lifetime; [$($items:tt)*]) => {{
        let mut list = Vec::new($alloc);
        $crate::json5_internal!(@array $alloc $out list $($items)*);
        $crate::Value::Array(list)
    }};
    ($alloc:ident $out:lifetime; {$($members:tt)*}) => {{
        let mut fields = Vec::new($alloc);
        $crate::json5_internal!(@object $alloc $out fields $($members)*);
        $crate::Value::Object(fields)
    }};
    ($alloc:ident $out:lifetime; $other:expr) => {
        $crate::json5_internal!(@try $out $crate::ToValue::to_value($other, $alloc))
    };
}
