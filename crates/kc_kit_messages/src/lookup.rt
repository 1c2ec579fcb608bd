ghost use Rattle.std.specs.Prelude.{◌≡◌, find};
ghost use Rattle.std.specs.Option.{option_copied, option_map, option_or};
ghost use Rattle.std.specs.Str.{bytes_eq};
ghost use Rattle.kc_kit_messages.specs.Codes.{all_codes};
ghost use Rattle.kc_kit_messages.specs.Meanings.{has_code, instruction_rows, said, said_of, sentence_of, IsAnswer};

use crate::instructions::{first, fourth, second, third};
use crate::meaning::Meaning;
use crate::table::{Row, inputs, meaning_in, runs, sources};

// The first row of a code.
fn find_in(table: &'static [Row], code: &[u8]) -> Option<&'static Row>
    ensures { option_copied result ≡ find (λ row. bytes_eq row.0.now code.now) table.now }
{
    table.iter().find(|row| row.0.as_bytes() == code)
}

fn earlier(row: Option<&'static Row>, other: Option<&'static Row>) -> Option<&'static Row>
    ensures { option_copied result ≡ option_or (option_copied row.entry) (option_copied other.entry) }
{
    match row {
        Some(row) => Some(row),
        None => other,
    }
}

// The row of an instruction.
fn find_instruction(name: &[u8]) -> Option<&'static Row>
    ensures { option_map (λ row. record { code = row.0.now; sentence = row.1.now; example = option_map (λ e. (e.0.now, e.1.now)) row.2 }) (option_copied result) ≡ find (has_code name.now) instruction_rows }
{
    let in_first = find_in(first(), name);
    let in_second = find_in(second(), name);
    let in_third = find_in(third(), name);
    let in_fourth = find_in(fourth(), name);
    let later = earlier(in_third, in_fourth);
    let others = earlier(in_second, later);
    earlier(in_first, others)
}

// The meaning of the code that these bytes spell.
fn meaning_of(code: &[u8]) -> Option<Meaning>
    ensures row { option_map said result ≡ said_of code.now }
    ensures answer { IsAnswer all_codes code.now (option_map said result) }
{
    let in_sources = find_in(sources(), code);
    let in_inputs = find_in(inputs(), code);
    let in_runs = find_in(runs(), code);
    let in_instructions = find_instruction(code);
    let later = earlier(in_runs, in_instructions);
    let others = earlier(in_inputs, later);
    match earlier(in_sources, others) {
        Some(row) => Some(meaning_in(row)),
        None => None,
    }
}

/// The meaning of a code, as it is printed: `E07`, `O03`, `B01`, `H02`, `BADLINE`, the word of a rule of linking (`range`); with its
/// number `kind10` for a kind of undefined use, `request3` for a request and `status4` for a status; and `LD` for an instruction.
/// `None` for any other text.
pub fn explain(code: &str) -> Option<Meaning>
    ensures row { option_map said result ≡ said_of code.now }
    ensures answer { IsAnswer all_codes code.now (option_map said result) }
{
    meaning_of(code.as_bytes())
}

/// The sentence of a code, without its full stop; no text where these bytes spell no code.
pub fn sentence(code: &[u8]) -> &'static str
    ensures { result.now ≡ sentence_of code.now }
{
    match meaning_of(code) {
        Some(row) => row.sentence,
        None => "",
    }
}
