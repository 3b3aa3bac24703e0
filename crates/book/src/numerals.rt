//! Numbers as a book writes them: 0, or one to four digits without a leading zero, perhaps after a minus.
ghost use Rattle.std.specs.Prelude.{◌≡◌, ◌≤◌, IfSome};
ghost use Rattle.book.specs.Numerals.{digits_ok, numeral, size_of};

// Whether these are one to four digits without a leading zero, or 0 alone.
fn is_plain(digits: &[u8]) -> bool
    ensures { result ≡ digits_ok digits.now }
{
    (1..=4).contains(&digits.len())
        && (digits.len() == 1 || digits[0] != b'0')
        && digits.iter().all(|b| b.is_ascii_digit())
}

// The number that the digits write. std's `parse` would want a `str`, and each digit would be tested twice more.
fn size(digits: &[u8]) -> Option<u16>
    ensures value { result ≡ size_of digits.now }
    ensures bound { IfSome result (λ n. n ≤ 9999) }
{
    if !is_plain(digits) {
        return None;
    }
    let mut n: u16 = 0;
    for b in digits {
        n = n * 10 + u16::from(*b - b'0');
    }
    Some(n)
}

// The number that the bytes write, with its sign.
pub(crate) fn read_numeral(text: &[u8]) -> Option<i16>
    ensures { result ≡ numeral text.now }
{
    let [first, rest @ ..] = text else {
        return None;
    };
    if *first != b'-' {
        return i16::try_from(size(text)?).ok();
    }
    let n = i16::try_from(size(rest)?).ok()?;
    if n == 0 {
        return None;
    }
    Some(-n)
}
