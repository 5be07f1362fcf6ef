// A cell with a text.
ghost use Rattle.std.specs.Prelude.{◌≡◌, []};

use crate::effect::{Effect, NonEmpty};
use crate::fork_join::ForkJoin;
use cloud_base::Text;

/// A change of a cell with a text. `IfEmpty` sets the text where it is empty.
#[derive(Drop, PartialEq, Eq)]
pub enum TextChange {
    Set(Text),
    IfEmpty(Text),
}

/// What was done to a text since the fork.
#[derive(Drop)]
enum Done {
    Keep,
    IfEmpty(NonEmpty),
    Set(Text),
}

impl Done {
    fn copied(&self) -> Done
        ensures { result ≡ self.now }
    {
        match self {
            Done::Keep => Done::Keep,
            Done::IfEmpty(text) => Done::IfEmpty(text.copied()),
            Done::Set(text) => Done::Set(text.copied()),
        }
    }
}

/// A text, as the text at the fork and what was done since.
#[derive(Drop)]
pub struct TextCell {
    base: Text,
    done: Done,
}

impl TextCell {
    ghost use Rattle.std.specs.Prelude.{Some};
    ghost use Rattle.fj_core.specs.TextCells.{done_effect, text_combined};

    /// Sets the text where it is empty.
    fn offer(&mut self, text: NonEmpty)
        ensures base { self.new.base ≡ self.old.base }
        ensures done { done_effect self.new.done
            ≡ text_combined (done_effect self.old.done) (Some (Effect.IfEmpty text)) }
    {
        match &self.done {
            Done::Keep => self.done = Done::IfEmpty(text),
            Done::Set(set) if set.as_slice().is_empty() => self.done = Done::Set(text.into_text()),
            _ => {}
        }
    }
}

impl ForkJoin for TextCell {
    ghost use Rattle.fj_core.specs.TextCells.{text_plain, text_effect, TextStands, IsTextEffect};
    ghost use Rattle.fj_core.specs.TextCells.{text_applied, text_combined};
    ghost use Rattle.fj_core.specs.TextLaws.{text_stands_by_effect, text_plain-append};
    ghost use Rattle.fj_core.specs.TextLaws.{text_effect-append, text_effect-empty, text_canonical};
    ghost use Rattle.fj_core.specs.TextLaws.{text_effect_is_own};

    type Change = TextChange;

    type Value = Text;

    ghost plain = { text_plain };

    ghost effect_of = { text_effect };

    ghost stands = { TextStands };

    ghost is_own = { IsTextEffect };

    ghost applied = { text_applied };

    ghost combined = { text_combined };

    fn fresh() -> TextCell {
        TextCell::of_value(Text::empty())
    }

    fn of_value(value: Text) -> TextCell {
        TextCell {
            base: value,
            done: Done::Keep,
        }
    }

    fn update(&mut self, change: &TextChange) {
        match change {
            TextChange::Set(text) => self.done = Done::Set(text.copied()),
            TextChange::IfEmpty(text) => {
                if let Some(offered) = NonEmpty::new(text.copied()) {
                    self.offer(offered);
                }
            }
        }
    }

    fn ask(&self) -> Text {
        match &self.done {
            Done::Set(text) => text.copied(),
            Done::IfEmpty(text) => {
                if self.base.as_slice().is_empty() {
                    text.as_text().copied()
                } else {
                    self.base.copied()
                }
            }
            Done::Keep => self.base.copied(),
        }
    }

    fn is_default(&self) -> bool {
        self.ask().as_slice().is_empty()
    }

    fn fork(&self) -> TextCell {
        TextCell::of_value(self.ask())
    }

    fn join(&mut self, child: &TextCell) {
        match &child.done {
            Done::Keep => {}
            Done::IfEmpty(text) => self.offer(text.copied()),
            Done::Set(text) => self.done = Done::Set(text.copied()),
        }
    }

    fn effect(&self) -> Option<Effect> {
        match &self.done {
            Done::Keep => None,
            Done::IfEmpty(text) => Some(Effect::IfEmpty(text.copied())),
            Done::Set(text) => Some(Effect::SetText(text.copied())),
        }
    }

    fn join_effect(&mut self, effect: &Effect) {
        match effect {
            Effect::SetText(text) => self.done = Done::Set(text.copied()),
            Effect::IfEmpty(text) => self.offer(text.copied()),
            _ => unreachable!(),
        }
    }

    fn copied(&self) -> TextCell {
        TextCell {
            base: self.base.copied(),
            done: self.done.copied(),
        }
    }

    ghost stands_by_effect = { text_stands_by_effect };

    ghost plain_append = { text_plain-append };

    ghost effect_append = { text_effect-append };

    ghost effect_empty = { text_effect-empty };

    ghost canonical = { text_canonical };

    ghost effect_is_own = { text_effect_is_own };
}
