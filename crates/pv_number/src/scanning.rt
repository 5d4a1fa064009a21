//! How far a number reaches (RFC 8259, section 6). An `Err` holds how many bytes are left where it breaks off.

ghost use Rattle.std.specs.Prelude.{◌≡◌, ◌≤◌, length, take, IfOk};
ghost use Rattle.pv_number.specs.Scanning as spec;
ghost use Rattle.pv_number.specs.Grammar.{IsNumber};

#[tactic(auto, unfolding(crate::specs::Scanning::digits))]
fn digits(s: &[u8]) -> usize
    ensures value { result ≡ spec.digits s.now }
    ensures within { result ≤ length s.now }
{
    let mut n = 0;
    for b in s {
        if !b.is_ascii_digit() {
            return n;
        }
        n += 1;
    }
    n
}

/// Whether the first byte is this one.
pub fn begins(byte: u8, s: &[u8]) -> bool
    ensures { result ≡ spec.begins byte s.now }
{
    match s {
        [b, ..] => *b == byte,
        [] => false,
    }
}

/// One digit or more, behind `n` bytes.
fn some_digits(n: usize, s: &[u8]) -> Result<usize, usize>
    requires { n ≤ length s.now }
    ensures value { result ≡ spec.some_digits n s.now }
    ensures within { IfOk result (λ x. x ≤ length s.now) }
{
    match digits(&s[n..]) {
        0 => Err(s.len() - n),
        count => Ok(count + n),
    }
}

#[tactic(auto, unfolding(crate::specs::Scanning::minus_len))]
fn minus_len(s: &[u8]) -> usize
    ensures value { result ≡ spec.minus_len s.now }
    ensures within { result ≤ length s.now }
{
    if begins(b'-', s) { 1 } else { 0 }
}

#[tactic(auto, unfolding(crate::specs::Scanning::sign_len))]
fn sign_len(s: &[u8]) -> usize
    ensures value { result ≡ spec.sign_len s.now }
    ensures within { result ≤ length s.now }
{
    if begins(b'-', s) || begins(b'+', s) {
        1
    } else {
        0
    }
}

#[tactic(auto, unfolding(crate::specs::Scanning::whole_len))]
fn whole_len(s: &[u8]) -> Result<usize, usize>
    ensures value { result ≡ spec.whole_len s.now }
    ensures within { IfOk result (λ n. n ≤ length s.now) }
{
    if begins(b'0', s) {
        return Ok(1);
    }
    some_digits(0, s)
}

#[tactic(auto, unfolding(crate::specs::Scanning::fraction_len))]
fn fraction_len(s: &[u8]) -> Result<usize, usize>
    ensures value { result ≡ spec.fraction_len s.now }
    ensures within { IfOk result (λ n. n ≤ length s.now) }
{
    if !begins(b'.', s) {
        return Ok(0);
    }
    some_digits(1, s)
}

#[tactic(auto, unfolding(crate::specs::Scanning::exponent_len))]
fn exponent_len(s: &[u8]) -> Result<usize, usize>
    ensures value { result ≡ spec.exponent_len s.now }
    ensures within { IfOk result (λ n. n ≤ length s.now) }
{
    if begins(b'e', s) || begins(b'E', s) {
        let sign = sign_len(&s[1..]);
        return some_digits(sign + 1, s);
    }
    Ok(0)
}

/// The length of the number at the front of `s`, the longest that the grammar has there. The answer
/// is `Err` where none stands there, with the number of bytes from the first unfitting one on.
#[tactic(auto, unfolding(crate::specs::Scanning::number_len))]
pub fn number_len(s: &[u8]) -> Result<usize, usize>
    ensures value { result ≡ spec.number_len s.now }
    ensures within { IfOk result (λ n. n ≤ length s.now) }
    ensures number { IfOk result (λ n. IsNumber (take n s.now)) }
{
    let minus = minus_len(s);
    let whole = whole_len(&s[minus..])?;
    let fraction = fraction_len(&s[minus + whole..])?;
    let exponent = exponent_len(&s[minus + whole + fraction..])?;
    Ok(minus + whole + fraction + exponent)
}

/// Whether the bytes are one number and nothing else.
#[tactic(auto, unfolding(crate::specs::Scanning::is_number))]
pub(crate) fn is_number(s: &[u8]) -> bool
    ensures { result ≡ spec.is_number s.now }
{
    number_len(s) == Ok(s.len())
}
