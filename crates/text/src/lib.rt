// Bytes and numbers as text: where tokens end, numbers read and written, text behind text.
#![tactic(auto)]

ghost use Rattle.std.specs.Prelude.{◌≡◌, ◌++◌, ◌+◌, ◌<◌, ◌≤◌, min, not, nat_eq, length, take, drop, take_while, MatchOption, [], ◌∷◌};
ghost use Rattle.text.specs.Tokens.{up_to, cut};
ghost use Rattle.text.specs.Numerals.{numeral};
ghost use Rattle.text.specs.Puts.{decimal, Put};

// How many bytes stand before the first `stop`.
fn count_before(bytes: &[u8], stop: u8) -> usize
    ensures { result ≡ length (take_while (λ b. not (nat_eq b stop)) bytes.now) }
{
    bytes.iter().take_while(|byte| **byte != stop).count()
}

// The first of the pieces between the stops, and the bytes behind its stop: None if no stop ends it.
pub fn next_token(bytes: &[u8], stop: u8) -> (&[u8], Option<&[u8]>)
    ensures token_value { result.0.now ≡ up_to stop bytes.now }
    ensures rest_value { MatchOption result.1 (length result.0.now ≡ length bytes.now) (λ rest. (length result.0.now + 1 + length rest.now ≡ length bytes.now) × (rest.now ≡ drop (length result.0.now + 1) bytes.now)) }
    ensures pieces { MatchOption result.1 (cut stop bytes.now ≡ result.0.now ∷ []) (λ rest. cut stop bytes.now ≡ result.0.now ∷ cut stop rest.now) }
{
    let (token, rest) = bytes.split_at(count_before(bytes, stop));
    (token, rest.get(1..))
}

// Reads a token: one or more digits, of any length, whose value is no more than `most`. A value that 64 bits do not hold is more. (std's `parse` takes a plus sign too, and wants a `str`.)
#[tactic(auto, using(crate::proofs::Numerals::turns))]
pub fn parse_number(token: &[u8], most: u64) -> Option<u64>
    ensures { result ≡ numeral most token.now }
{
    if token.is_empty() {
        return None;
    }
    let mut value: u64 = 0;
    for byte in token {
        let digit = match byte {
            b'0'..=b'9' => u64::from(byte - b'0'),
            _ => return None,
        };
        value = value.checked_mul(10)?.checked_add(digit)?;
    }
    if value <= most { Some(value) } else { None }
}

// Puts bytes behind the first `used` of a room, as far as it goes: what does not fit is passed over. Room and place are apart, here and above, and no struct of both:
// `room_unchanged`, `Put` and talk's `Left` say what lies behind the text too, which a private room would hide.
#[tactic(auto, using(crate::proofs::Tokens::written_over, crate::proofs::Tokens::kept_over))]
pub fn append(room: &mut [u8], used: usize, bytes: &[u8]) -> usize
    requires { used ≤ length room.old }
    ensures value { result ≡ min (length room.old) (used + length bytes.now) }
    ensures room_after { take result room.new ≡ take (length room.old) (take used room.old ++ bytes.now) }
    ensures room_unchanged { drop result room.new ≡ drop result room.old }
{
    // Where there is nothing to put no copy is begun: a blank line of the console takes half the time.
    if bytes.is_empty() {
        return used;
    }
    let count = bytes.len().min(room.len() - used);
    let end = used + count;
    room[used..end].copy_from_slice(&bytes[..count]);
    end
}

// Puts text for which there is room.
pub fn put(out: &mut [u8], at: usize, text: &[u8]) -> usize
    requires { at + length text.now ≤ length out.old }
    ensures { Put out.old at text.now result out.new }
{
    append(out, at, text)
}

// Puts a number. No number of 64 bits has more than 20 digits.
pub fn put_number(out: &mut [u8], at: usize, n: u64) -> usize
    requires { at + 20 ≤ length out.old }
    ensures { Put out.old at (decimal n) result out.new }
{
    let mut digits = [0u8; 20];
    let count = io::decimal(n, &mut digits);
    put(out, at, &digits[..count])
}

// Puts a number behind its name, and what ends them.
pub fn put_named(out: &mut [u8], at: usize, name: &[u8], n: u64, end: &[u8]) -> usize
    requires { at + length name.now + 20 + length end.now ≤ length out.old }
    ensures put { Put out.old at (name.now ++ (decimal n ++ end.now)) result out.new }
    ensures upper_bound { result ≤ at + length name.now + 20 + length end.now }
{
    let named = put(out, at, name);
    let numbered = put_number(out, named, n);
    put(out, numbered, end)
}

// What was taken of a line: how many of its bytes are held, where in the input the next line begins, and the input behind the newline that ended it, if one did.
// The number lends nothing: whoever fills the input anew goes on by it.
#[derive(Clone, Copy)]
pub struct Taken<'a> {
    pub held: usize,
    pub from: usize,
    pub rest: Option<&'a [u8]>,
}

// Holds the bytes up to the next newline behind those that are held, as far as the room goes: a line may come in several pieces of the input.
pub fn take_line<'a>(input: &'a [u8], line: &mut [u8], held: usize) -> Taken<'a>
    requires { held ≤ length line.old }
    ensures rest_value { MatchOption result.rest (length (up_to 10 input.now) ≡ length input.now) (λ rest. (length (up_to 10 input.now) < length input.now) × (rest.now ≡ drop (length (up_to 10 input.now) + 1) input.now)) }
    ensures from_value { result.from ≡ min (length input.now) (length (up_to 10 input.now) + 1) }
    ensures held_after_in_bounds { result.held ≤ length line.old }
    ensures line_after { take result.held line.new ≡ take (length line.old) (take held line.old ++ up_to 10 input.now) }
    ensures line_unchanged { drop result.held line.new ≡ drop result.held line.old }
{
    let (taken, rest) = next_token(input, b'\n');
    Taken {
        held: append(line, held, taken),
        from: input.len().min(taken.len() + 1),
        rest,
    }
}
