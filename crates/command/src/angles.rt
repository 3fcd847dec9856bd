// Angles, written as whole degrees.
ghost use Rattle.pose.specs.Texts.{Plain, angle_text};
ghost use Rattle.command.specs.Signs.{angle_spaceless, angle_distinct};

use crate::words::Word;
use pose::from_degrees;

// Whole degrees from -360 to 360, with a hyphen for minus.
impl Word for f32 {
    ghost lawful = { Plain };

    ghost spelled = { angle_text };

    ghost spaceless = { λ x p. angle_spaceless x p };

    ghost distinct = { λ x y p q e. angle_distinct x y p q e };

    fn from_word(word: &[u8]) -> Option<f32> {
        from_degrees(i32::from_word(word)?)
    }
}
