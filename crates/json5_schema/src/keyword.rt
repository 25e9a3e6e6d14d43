//! The keywords of a schema.

ghost use Rattle.std.specs.Prelude.{◌≡◌};
ghost use Rattle.json5_schema.specs.Keywords.{keyword_named, keyword_to_four, keyword_of_five, keyword_to_seven, keyword_of_eight, keyword_to_ten, keyword_to_sixteen, long_keyword};

/// A keyword that says by itself whether a value is as it is wanted; `format` says so where the schema asserts formats.
#[derive(Clone, Copy)]
pub enum Assertion {
    Type,
    Enum,
    Const,
    MultipleOf,
    Maximum,
    ExclusiveMaximum,
    Minimum,
    ExclusiveMinimum,
    MaxLength,
    MinLength,
    Pattern,
    Format,
    MaxItems,
    MinItems,
    UniqueItems,
    MaxProperties,
    MinProperties,
    Required,
    DependentRequired,
}

/// A keyword that applies schemas to the value, or to its parts.
#[derive(Clone, Copy)]
pub enum Applicator {
    AllOf,
    AnyOf,
    OneOf,
    Not,
    If,
    DependentSchemas,
    Dependencies,
    PrefixItems,
    Items,
    AdditionalItems,
    Contains,
    Properties,
    PatternProperties,
    AdditionalProperties,
    PropertyNames,
    UnevaluatedProperties,
    UnevaluatedItems,
    Ref,
}

/// What a member of a schema is.
#[derive(Clone, Copy)]
pub enum Keyword {
    Assertion(Assertion),
    Applicator(Applicator),
    /// It asks nothing of the value.
    Annotation,
}

/// The keyword with this name. It is compared with those of about its length alone.
pub fn keyword_named(name: &str) -> Keyword
    ensures { result ≡ keyword_named name.now }
{
    match name.len() {
        0..=4 => keyword_to_four(name),
        5 => keyword_of_five(name),
        6..=7 => keyword_to_seven(name),
        8 => keyword_of_eight(name),
        9..=10 => keyword_to_ten(name),
        11..=16 => keyword_to_sixteen(name),
        _ => long_keyword(name),
    }
}

/// The keyword with this name of at most four letters.
fn keyword_to_four(name: &str) -> Keyword
    ensures { result ≡ keyword_to_four name.now }
{
    match name {
        "type" => Keyword::Assertion(Assertion::Type),
        "enum" => Keyword::Assertion(Assertion::Enum),
        "not" => Keyword::Applicator(Applicator::Not),
        "if" => Keyword::Applicator(Applicator::If),
        "$ref" => Keyword::Applicator(Applicator::Ref),
        _ => Keyword::Annotation,
    }
}

/// The keyword with this name of five letters.
fn keyword_of_five(name: &str) -> Keyword
    ensures { result ≡ keyword_of_five name.now }
{
    match name {
        "const" => Keyword::Assertion(Assertion::Const),
        "allOf" => Keyword::Applicator(Applicator::AllOf),
        "anyOf" => Keyword::Applicator(Applicator::AnyOf),
        "oneOf" => Keyword::Applicator(Applicator::OneOf),
        "items" => Keyword::Applicator(Applicator::Items),
        _ => Keyword::Annotation,
    }
}

/// The keyword with this name of six or seven letters.
fn keyword_to_seven(name: &str) -> Keyword
    ensures { result ≡ keyword_to_seven name.now }
{
    match name {
        "maximum" => Keyword::Assertion(Assertion::Maximum),
        "minimum" => Keyword::Assertion(Assertion::Minimum),
        "pattern" => Keyword::Assertion(Assertion::Pattern),
        "format" => Keyword::Assertion(Assertion::Format),
        _ => Keyword::Annotation,
    }
}

/// The keyword with this name of eight letters.
fn keyword_of_eight(name: &str) -> Keyword
    ensures { result ≡ keyword_of_eight name.now }
{
    match name {
        "maxItems" => Keyword::Assertion(Assertion::MaxItems),
        "minItems" => Keyword::Assertion(Assertion::MinItems),
        "required" => Keyword::Assertion(Assertion::Required),
        "contains" => Keyword::Applicator(Applicator::Contains),
        _ => Keyword::Annotation,
    }
}

/// The keyword with this name of nine or ten letters.
fn keyword_to_ten(name: &str) -> Keyword
    ensures { result ≡ keyword_to_ten name.now }
{
    match name {
        "multipleOf" => Keyword::Assertion(Assertion::MultipleOf),
        "maxLength" => Keyword::Assertion(Assertion::MaxLength),
        "minLength" => Keyword::Assertion(Assertion::MinLength),
        "properties" => Keyword::Applicator(Applicator::Properties),
        _ => Keyword::Annotation,
    }
}

/// The keyword with this name of eleven to sixteen letters.
fn keyword_to_sixteen(name: &str) -> Keyword
    ensures { result ≡ keyword_to_sixteen name.now }
{
    match name {
        "exclusiveMaximum" => Keyword::Assertion(Assertion::ExclusiveMaximum),
        "exclusiveMinimum" => Keyword::Assertion(Assertion::ExclusiveMinimum),
        "uniqueItems" => Keyword::Assertion(Assertion::UniqueItems),
        "maxProperties" => Keyword::Assertion(Assertion::MaxProperties),
        "minProperties" => Keyword::Assertion(Assertion::MinProperties),
        "dependentSchemas" => Keyword::Applicator(Applicator::DependentSchemas),
        "dependencies" => Keyword::Applicator(Applicator::Dependencies),
        "prefixItems" => Keyword::Applicator(Applicator::PrefixItems),
        "additionalItems" => Keyword::Applicator(Applicator::AdditionalItems),
        "propertyNames" => Keyword::Applicator(Applicator::PropertyNames),
        "unevaluatedItems" => Keyword::Applicator(Applicator::UnevaluatedItems),
        _ => Keyword::Annotation,
    }
}

/// The keyword with this name of more letters.
fn long_keyword(name: &str) -> Keyword
    ensures { result ≡ long_keyword name.now }
{
    match name {
        "dependentRequired" => Keyword::Assertion(Assertion::DependentRequired),
        "patternProperties" => Keyword::Applicator(Applicator::PatternProperties),
        "additionalProperties" => Keyword::Applicator(Applicator::AdditionalProperties),
        "unevaluatedProperties" => Keyword::Applicator(Applicator::UnevaluatedProperties),
        _ => Keyword::Annotation,
    }
}
