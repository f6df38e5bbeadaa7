// RULES.md, "Trace and listing": the numbers below 1,000 in decimal, in two tables. They are filled once and lent to every
// line: a table inside a function would be copied at each call.
ghost use Rattle.std.specs.Prelude.{◌≡◌, ◌<◌};
ghost use Rattle.digits.specs.Tables.{leading_of, padded_of, Tables};

fn leading_digits(value: u32) -> u32
    requires { value < 1000 }
    ensures { result ≡ leading_of value }
{
    let ones = b'0' + (value % 10) as u8;
    if value < 10 {
        return u32::from_le_bytes([ones, 0, 0, 1]);
    }
    let tens = b'0' + (value / 10 % 10) as u8;
    if value < 100 {
        return u32::from_le_bytes([tens, ones, 0, 2]);
    }
    u32::from_le_bytes([b'0' + (value / 100) as u8, tens, ones, 3])
}

fn padded_digits(value: u32) -> u32
    requires { value < 1000 }
    ensures { result ≡ padded_of value }
{
    u32::from_le_bytes([
        b'0' + (value / 100) as u8,
        b'0' + (value / 10 % 10) as u8,
        b'0' + (value % 10) as u8,
        0,
    ])
}

// The digits of each number below 1,000, the first in the lowest byte: in `leading` without zeros in front, their count in
// the top byte; in `padded` three of them.
#[derive(Drop)]
pub struct DigitTables {
    pub leading: [u32; 1000],
    pub padded: [u32; 1000],
    pub ghost filled: { Tables leading padded },
}

impl DigitTables {
    pub fn new() -> Self
        ensures { Tables result.leading result.padded }
    {
        let mut leading = [0; 1000];
        let mut padded = [0; 1000];
        for value in 0..1000 {
            let index = value as usize;
            leading[index] = leading_digits(value);
            padded[index] = padded_digits(value);
        }
        DigitTables { leading, padded }
    }
}
