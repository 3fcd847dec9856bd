// Angles of a whole number of degrees, which cross to text and back. These are functions, since `TryFrom` between two types of std
// cannot be implemented here.
ghost use Rattle.std.specs.Prelude.{◌≡◌, from_bits};
ghost use Rattle.std.specs.Float.{binary32};
ghost use Rattle.pose.specs.Degrees.{angle_of, whole_of, Whole, Exact};

use std::num::{f32_from_bits_with_nan, saturating_f32_to_i32};

const TURN: i32 = 360;

// The angle of a whole number of degrees from -360 to 360, exactly; none outside of these.
pub fn from_degrees(degrees: i32) -> Option<f32>
    ensures value { result ≡ angle_of degrees }
    ensures exact { Exact degrees result }
{
    if (-TURN..=TURN).contains(&degrees) {
        Some(degrees as f32)
    } else {
        None
    }
}

// The whole number of degrees from -360 to 360 that an angle is, or none; negative zero is 0 degrees.
pub fn whole_degrees(angle: f32) -> Option<i32>
    ensures value { result ≡ whole_of angle }
    ensures means { Whole angle result }
{
    let nearest = saturating_f32_to_i32(angle);
    ((-TURN..=TURN).contains(&nearest) && angle == nearest as f32).then_some(nearest)
}

// The same of an angle given by its bits; none where they are no number.
pub fn bits_to_degrees(bits: u32) -> Option<i32>
    ensures value { result ≡ whole_of (from_bits binary32 bits) }
    ensures means { Whole (from_bits binary32 bits) result }
{
    whole_degrees(f32_from_bits_with_nan(bits))
}
