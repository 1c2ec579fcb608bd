ghost use Rattle.std.specs.Prelude.{◌≡◌};
ghost use Rattle.std.specs.List.{list_all};
ghost use Rattle.kc_obj_module.specs.Names.{is_digit, is_name_char, begins_name, is_name, is_stack_name, is_below};

/// Whether a character is a decimal digit.
pub fn digit(c: u8) -> bool
    ensures { result ≡ is_digit c }
{
    b'0' <= c && c <= b'9'
}

pub(crate) fn name_char(c: u8) -> bool
    ensures { result ≡ is_name_char c }
{
    b'A' <= c && c <= b'Z' || digit(c) || c == b'_' || c == b'?'
}

fn begins(name: &[u8]) -> bool
    ensures { result ≡ begins_name name.now }
{
    match name {
        [] => false,
        [first, ..] => !digit(*first),
    }
}

/// Whether each character can stand in a name.
pub fn all_name_chars(characters: &[u8]) -> bool
    ensures { result ≡ list_all is_name_char characters.now }
{
    characters.iter().all(|c| name_char(*c))
}

/// Whether a name can stand in an object: at most 31 upper-case letters, digits, `_` and `?`, and no digit first.
pub fn name_is_sound(name: &[u8]) -> bool
    ensures { result ≡ is_name name.now }
{
    begins(name) && name.len() <= 31 && all_name_chars(name)
}

/// Whether a name is STACK.
pub fn is_stack(name: &[u8]) -> bool
    ensures { result ≡ is_stack_name name.now }
{
    name == b"STACK".as_slice()
}

/// Whether a name comes before another one in the order of bytes.
#[tactic(auto, unfolding(crate::specs::Names::is_below))]
pub fn comes_below(name: &[u8], other: &[u8]) -> bool
    ensures { result ≡ is_below name.now other.now }
{
    let mut left = name;
    let mut right = other;
    while let [c, rest @ ..] = left {
        match right {
            [] => return false,
            [d, others @ ..] => {
                if c != d {
                    return c < d;
                }
                right = others;
            }
        }
        left = rest;
    }
    !right.is_empty()
}
