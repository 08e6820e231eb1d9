// Lines read as calls.

ghost use Rattle.std.specs.Prelude.{◌≡◌, true, is_some, vec_items, MatchResult};
ghost use Rattle.std.specs.Option.{option_map};
ghost use Rattle.session.specs.Calls.{number_in, call_named, call_of};
ghost use Rattle.session.specs.Lines.{opened};

use crate::call::Call;
use crate::hex::hex_bytes;
use std::alloc::{AllocError, Global};

// What the line asks, or none where it is no call.
pub(crate) fn call_of_line(line: &[u8]) -> Option<Call>
    ensures { result ≡ call_of line.now }
{
    let mut words = line.split(|c| *c == b' ');
    let name = words.next()?;
    // An array with a count beside it, since reading a call allocates nothing.
    let mut numbers = [0; 3];
    let mut count = 0;
    for word in words {
        let number = number_in(word)?;
        if count == numbers.len() {
            return None;
        }
        numbers[count] = number;
        count += 1;
    }
    call_by_name(name, &numbers[..count])
}

// The bytes that a line opens, or none where it opens nothing.
pub fn opened_by_line(heap: Global, line: &[u8]) -> Result<Option<Vec<u8>>, AllocError>
    ensures { MatchResult result (λ o. option_map vec_items o ≡ opened line.now) (λ _. is_some (opened line.now) ≡ true) }
{
    match line.strip_prefix(b"open ") {
        Some(digits) => hex_bytes(heap, digits),
        None => Ok(None),
    }
}

// The number that a word writes in base ten.
fn number_in(word: &[u8]) -> Option<usize>
    ensures { result ≡ number_in word.now }
{
    if !word.iter().all(u8::is_ascii_digit) {
        return None;
    }
    str::from_utf8(word).ok()?.parse().ok()
}

#[tactic(auto, using(crate::proofs::Names::no_name, crate::proofs::Names::answer_by_more))]
fn call_by_name(name: &[u8], numbers: &[usize]) -> Option<Call>
    ensures { result ≡ call_named name.now numbers.now }
{
    match (str::from_utf8(name).ok()?, numbers) {
        ("home", []) => Some(Call::Home),
        ("alone", [n]) => Some(Call::Alone(*n)),
        ("answer", [n]) => Some(Call::Answer(*n)),
        ("mode", [n]) => Some(Call::Mode(*n)),
        ("value", [n]) => Some(Call::Value(*n)),
        ("count", [n]) => Some(Call::Count(*n)),
        ("pair", [n, m]) => Some(Call::Pair(*n, *m)),
        ("byte", [n, m, k]) => Some(Call::Byte(*n, *m, *k)),
        _ => None,
    }
}
