//! A line's fields, and the numbers that stand in them.
//!
//! Held to `specs/Fields.antt`. What fields mean is left to the languages.
ghost use Rattle.std.specs.Prelude.{◌≡◌, ◌∷◌, [], ◌==◌, position};
ghost use Rattle.std.specs.Option.{option_map_or};
ghost use Rattle.saa_run_text.specs.Fields.{fields_of, number_of};

/// The number that a field is: 1 to 6 decimal digits without a leading zero, except 0 itself.
pub fn number(field: &[u8]) -> Option<u32>
    ensures { result ≡ number_of field.now }
{
    if field.is_empty() || field.len() > 6 {
        return None;
    }
    if field[0] == b'0' && field.len() > 1 {
        return None;
    }
    let mut value = 0u32;
    for digit in field {
        if !digit.is_ascii_digit() {
            return None;
        }
        value = value * 10 + u32::from(*digit - b'0');
    }
    Some(value)
}

/// The number that a field is, as a count.
pub fn count(field: &[u8]) -> Option<usize>
    ensures { result ≡ number_of field.now }
{
    match number(field) {
        Some(n) => Some(n as usize),
        None => None,
    }
}

/// The first field of a line, and the fields behind it where there are more.
pub fn first_field(line: &[u8]) -> (&[u8], Option<&[u8]>)
    ensures { fields_of line.now
        ≡ result.0.now ∷ option_map_or (λ rest. fields_of rest.now) result.1 [] }
{
    match first_space(line) {
        None => (line, None),
        Some(at) => (&line[..at], Some(&line[at + 1..])),
    }
}

/// Where the first space of a line is.
fn first_space(line: &[u8]) -> Option<usize>
    ensures { result ≡ position (λ b. b == 32) line.now }
{
    line.iter().position(|b| *b == b' ')
}
