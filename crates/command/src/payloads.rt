// How payloads are written in a script.
ghost use Rattle.std.specs.Prelude.{◌≡◌, ℕ, ◌^◌, ◌<◌, List, ◌∷◌, Some, None, decimal, ◌≢◌};
ghost use Rattle.pose.specs.Bits.{bits_of};
ghost use Rattle.pose.specs.Texts.{PlainPose, pose_text};
ghost use Rattle.command.specs.Words.{Reads};
ghost use Rattle.std.proofs.lemmas.Fmt.{decimal_injective};
ghost use Rattle.command.specs.Joints.{pose_distinct};

use crate::words::only_words;
use pose::{Pose, PoseBits};

// A kind of payload: which payloads a script can give, and their text.
pub trait PayloadText: Sized {
    ghost lawful: { Self → Type 0 };

    ghost written: { Self → List ℕ };

    // The payload that the text has after a single space, or none.
    fn from_text(text: &[u8]) -> Option<Self>
        ensures { Reads lawful (λ p. 32 ∷ written p) text.now result };

    ghost distinct: { (p q : Self) → lawful p → lawful q → written p ≡ written q → p ≡ q };
}

// A count is a decimal number.
impl PayloadText for u64 {
    ghost lawful = { λ n. n < 2 ^ 64 };

    ghost written = { decimal };

    ghost distinct = { λ m n h k e. decimal_injective m n h k e };

    fn from_text(text: &[u8]) -> Option<u64> {
        let [count] = only_words::<u64, 1>(text)?;
        Some(count)
    }
}

// The pose of four whole degrees, each after a single space.
fn read_pose(text: &[u8]) -> Option<Pose>
    ensures { elim result [ Some p ↦ PlainPose (bits_of p) × (text.now ≡ 32 ∷ pose_text (bits_of p)) | None ↦ ((b : PoseBits) → PlainPose b → text.now ≢ 32 ∷ pose_text b) ] }
{
    let [joint0, joint1, joint2, joint3] = only_words::<f32, 4>(text)?;
    Some(Pose {
        joint0,
        joint1,
        joint2,
        joint3,
    })
}

// A pose stands for the bits of its angles.
impl PayloadText for PoseBits {
    ghost lawful = { PlainPose };

    ghost written = { pose_text };

    ghost distinct = { λ b d p q e. pose_distinct b d p q e };

    fn from_text(text: &[u8]) -> Option<PoseBits> {
        read_pose(text).map(PoseBits::from)
    }
}
