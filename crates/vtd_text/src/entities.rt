//! The built-in entities (XML 1.0, section 4.6). No call takes memory.
#![tactic(auto)]

ghost use Rattle.std.specs.Prelude.{◌≡◌};
ghost use Rattle.std.specs.Option.{unwrap_or};
ghost use Rattle.std.specs.Str.{chars};
ghost use Rattle.xml_model.specs.Content.{entity_char};

/// The character of a built-in entity (XML 1.0, section 4.6); the character 0 for any other name, which is in no
/// document that is accepted.
pub(crate) fn entity_char(name: &str) -> char
    ensures { result ≡ unwrap_or (entity_char (chars name.now)) 0 }
{
    match name {
        "lt" => '<',
        "gt" => '>',
        "amp" => '&',
        "apos" => '\'',
        "quot" => '"',
        _ => '\0',
    }
}
