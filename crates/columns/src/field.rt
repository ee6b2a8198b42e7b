// Number fields: blanks, then decimal digits up to the field's last column.

ghost use Rattle.std.specs.Prelude.{◌≡◌, ◌<◌, ◌≤◌, length, drop, IfSome};
ghost use Rattle.columns.specs.Fields.{unblanked, digits_below, number_below, ReadsWritten};

// The number in a field, where the field is good and the number is below the limit.
#[tactic(auto, using(crate::proofs::Numbers::reads_written))]
pub fn read_number(field: &[u8], limit: u32) -> Option<u32>
    ensures value { result ≡ number_below limit field.now }
    ensures below { IfSome result (λ n. n < limit) }
    ensures written { ReadsWritten limit field.now }
{
    let (_, digits) = field.split_at(leading_blanks(field));
    match digits {
        [] | [b'0', _, ..] => None,
        _ => digits_value(digits, limit),
    }
}

// How many blanks stand in front.
fn leading_blanks(field: &[u8]) -> usize
    ensures within { result ≤ length field.now }
    ensures rest { drop result field.now ≡ unblanked field.now }
{
    field.iter().take_while(|b| **b == b' ').count()
}

// The number that digits say, where all are digits and the number is below the limit.
fn digits_value(digits: &[u8], limit: u32) -> Option<u32>
    ensures { result ≡ digits_below limit digits.now }
{
    let mut value: u32 = 0;
    for b in digits {
        if !b.is_ascii_digit() {
            return None;
        }
        value = value.checked_mul(10)?.checked_add(u32::from(*b - b'0'))?;
    }
    (value < limit).then_some(value)
}
