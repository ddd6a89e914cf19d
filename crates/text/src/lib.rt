// Text in a lent buffer: bytes, numbers in decimal digits and signed numbers, each put at a position. Where something does not fit, the
// buffer stays as it was and the answer is the position itself.
#![tactic(auto)]

ghost use Rattle.std.specs.Prelude.{◌≡◌};
ghost use Rattle.answer.specs.Outcome.{outcome};
ghost use Rattle.answer.specs.Placed.{placed};
ghost use Rattle.text.specs.Texts.{decimal, signed};

// Puts bytes at a position and answers the position after them.
#[tactic(auto, using(answer::proofs::Placing::placed_short, crate::proofs::Puts::placed_part))]
pub fn put(text: &mut [u8], at: usize, bytes: &[u8]) -> usize
    ensures { outcome result text.new ≡ placed text.old at bytes.now }
{
    if text.len() < at || text.len() - at < bytes.len() {
        return at;
    }
    text[at..at + bytes.len()].copy_from_slice(bytes);
    at + bytes.len()
}

// Puts a number in decimal digits.
#[tactic(auto, using(crate::proofs::Decimals::digits_decimal))]
pub fn put_decimal(text: &mut [u8], at: usize, value: u64) -> usize
    ensures { outcome result text.new ≡ placed text.old at (decimal value) }
{
    let mut digits = [0u8; 20];
    let count = io::decimal(value, &mut digits);
    put(text, at, &digits[..count])
}

// Puts a signed number, with a minus sign in front of a negative one.
#[tactic(auto, using(crate::proofs::Signs::signed_other, crate::proofs::Signs::signed_negative, crate::proofs::Signs::spelt_length, crate::proofs::Signs::spelt_shown))]
pub fn put_signed(text: &mut [u8], at: usize, value: i64) -> usize
    ensures { outcome result text.new ≡ placed text.old at (signed value) }
{
    if value < 0 {
        let mut spelt = [0u8; 21];
        let sign = put(&mut spelt, 0, b"-");
        let end = put_decimal(&mut spelt, sign, integers::magnitude(value));
        return put(text, at, &spelt[..end]);
    }
    put_decimal(text, at, integers::magnitude(value))
}
