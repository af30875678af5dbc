//! Numbers of a command line: decimal digits without a sign and without a needless leading zero, within a range.
ghost use Rattle.std.specs.Prelude.{◌≡◌, ◌≤◌, IfSome};
ghost use Rattle.std.specs.List.{list_all};
ghost use Rattle.std.specs.Char.{is_ascii_digit};
ghost use Rattle.hags_words.specs.Numbers.{has_needless_zero, is_number, in_range, number_of, number_if_any};
ghost use Rattle.hags_words.specs.Texts.{text_of};

fn are_digits(text: &[u8]) -> bool
    ensures { result ≡ list_all is_ascii_digit text.now }
{
    text.iter().all(|b| b.is_ascii_digit())
}

fn has_needless_zero(text: &[u8]) -> bool
    ensures { result ≡ has_needless_zero text.now }
{
    match text {
        [first, _, ..] => *first == b'0',
        _ => false,
    }
}

fn is_number(text: &[u8]) -> bool
    ensures { result ≡ is_number text.now }
{
    !text.is_empty() && are_digits(text) && !has_needless_zero(text)
}

fn in_range(low: u32, high: u32, number: u32) -> Option<u32>
    ensures value { result ≡ in_range low high number }
    ensures within { IfSome result (λ n. (low ≤ n) × (n ≤ high)) }
{
    if low <= number && number <= high {
        Some(number)
    } else {
        None
    }
}

/// The number that the text spells, where it is from `low` to `high`.
pub fn number(low: u32, high: u32, text: &str) -> Option<u32>
    ensures value { result ≡ number_of low high text.now }
    ensures within { IfSome result (λ n. (low ≤ n) × (n ≤ high)) }
{
    if !is_number(text.as_bytes()) {
        return None;
    }
    match text.parse::<u32>() {
        Ok(number) => in_range(low, high, number),
        Err(_) => None,
    }
}

/// The number of a node, from 1 to 32.
pub fn node_number(text: &str) -> Option<u8>
    ensures value { result ≡ number_of 1 32 text.now }
    ensures within { IfSome result (λ n. (1 ≤ n) × (n ≤ 32)) }
{
    let node = number(1, 32, text)?;
    Some(node as u8)
}

/// The number that the text spells, where there is a text; `None` exactly where there is one that spells none.
#[tactic(auto, unfolding(crate::specs::Numbers::number_if_any))]
pub fn number_if_any(low: u32, high: u32, text: Option<&str>) -> Option<Option<u32>>
    ensures value { result ≡ number_if_any low high (text_of text.entry) }
    ensures within { IfSome result (λ o. IfSome o (λ n. (low ≤ n) × (n ≤ high))) }
{
    match text {
        None => Some(None),
        Some(text) => Some(Some(number(low, high, text)?)),
    }
}
