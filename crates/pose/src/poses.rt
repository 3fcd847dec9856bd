// A pose and its bits. Lines and stores carry the bits, and two poses are alike where these are.
ghost use Rattle.std.specs.Prelude.{◌≡◌, Ok, Err};
ghost use Rattle.std.specs.Float.Ieee as Ieee;
ghost use Rattle.std.specs.Float.{binary32};
ghost use Rattle.pose.specs.Bits.{angle_bits, angle_at, IsBitsOf, IsPoseOf};

use std::num::{f32_from_bits_with_nan, f32_to_bits_with_nan};

// Four joint angles in degrees. A struct of its own and no instance of a generic one, as a rule of the project has it.
#[derive(Clone, Copy)]
pub struct Pose {
    pub joint0: f32,
    pub joint1: f32,
    pub joint2: f32,
    pub joint3: f32,
}

// The bits of four joint angles.
#[derive(Clone, Copy, Debug, PartialEq, Eq)]
pub struct PoseBits {
    pub joint0: u32,
    pub joint1: u32,
    pub joint2: u32,
    pub joint3: u32,
}

// Why bits make no pose: those of an angle are no number.
#[derive(Clone, Copy, Debug, PartialEq, Eq)]
pub struct NotANumber;

// The bits of an angle; one that is not a number has the bits 0x7FC00000.
fn angle_to_bits(angle: f32) -> u32
    ensures value { result ≡ angle_bits angle }
    ensures back { Ieee.of_bits binary32 result ≡ angle }
    ensures number { Ieee.nan_bits binary32 result ≡ Ieee.is_nan angle }
{
    f32_to_bits_with_nan(angle)
}

// Whether the bits are those of no number.
fn are_nan(bits: u32) -> bool
    ensures { result ≡ Ieee.nan_bits binary32 bits }
{
    0x7f80_0000 < bits % 0x8000_0000
}

// The angle with these bits, where they are a number.
fn angle_from_bits(bits: u32) -> Result<f32, NotANumber>
    ensures value { result ≡ angle_at bits }
    ensures back { elim result [ Ok x ↦ angle_bits x ≡ bits | Err _ ↦ Unit {0} ] }
{
    if are_nan(bits) {
        return Err(NotANumber);
    }
    Ok(f32_from_bits_with_nan(bits))
}

// A pose has bits, and they give it back.
impl From<Pose> for PoseBits {
    ghost from_gives = { IsBitsOf };

    fn from(pose: Pose) -> PoseBits {
        PoseBits {
            joint0: angle_to_bits(pose.joint0),
            joint1: angle_to_bits(pose.joint1),
            joint2: angle_to_bits(pose.joint2),
            joint3: angle_to_bits(pose.joint3),
        }
    }
}

// Bits make a pose where each angle's bits are a number, and it has these bits.
impl TryFrom<PoseBits> for Pose {
    type Error = NotANumber;

    ghost try_from_gives = { IsPoseOf };

    fn try_from(bits: PoseBits) -> Result<Pose, NotANumber> {
        Ok(Pose {
            joint0: angle_from_bits(bits.joint0)?,
            joint1: angle_from_bits(bits.joint1)?,
            joint2: angle_from_bits(bits.joint2)?,
            joint3: angle_from_bits(bits.joint3)?,
        })
    }
}
