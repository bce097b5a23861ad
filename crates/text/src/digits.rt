// Digits: whether bytes are digits, and what digits are worth, however many they are.
// Which digits are a number is for their readers to say.
ghost use Rattle.std.specs.Prelude.{◌≡◌, true, ◌^◌, ◌≤◌, min};
ghost use Rattle.text.specs.Digits.{all_digits, value};

pub fn all_digits(text: &[u8]) -> bool
    ensures { result ≡ all_digits text.now }
{
    text.iter().all(|byte| byte.is_ascii_digit())
}

// What digits are worth, but no more than `most`: once that is reached the digits behind it change nothing, and nothing
// wraps.
pub fn value_at_most(text: &[u8], most: u64) -> u64
    requires text_value { all_digits text.now ≡ true }
    requires most_bound { most ≤ 10 ^ 18 }
    ensures { result ≡ min most (value text.now) }
{
    let mut n = 0;
    for digit in text {
        n = 10 * n + u64::from(*digit - b'0');
        if most <= n {
            return most;
        }
    }
    n
}
