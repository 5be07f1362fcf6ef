// Cells whose states fork and join: each state stands for the changes after a list of changes.
#![tactic(auto)]

mod effect;
mod fork_join;
mod int_cell;
mod laws;
mod text_cell;

pub use effect::{Effect, NonEmpty, NonZero};
pub use fork_join::ForkJoin;
pub use int_cell::{IntCell, IntChange};
pub use laws::changes_keep_values;
pub use text_cell::{TextCell, TextChange};

#[cfg(test)]
mod tests {
    use crate::{Effect, ForkJoin, IntCell, IntChange, TextCell, TextChange};
    use cloud_base::Text;
    use std::test::Fail;

    /// A cell that was forked from one of a value, and then changed.
    fn changed<C: ForkJoin>(value: C::Value, changes: &[C::Change]) -> C {
        let root = C::of_value(value);
        let mut cell = root.fork();
        for change in changes {
            cell.update(change);
        }
        cell
    }

    fn text(bytes: &[u8]) -> Result<Text, Fail> {
        Ok(Text::new(bytes)?)
    }

    #[test]
    fn adds_add_up_and_a_joined_set_wins(rt: HostRuntime) {
        let add = IntChange::Add(2);
        let set = IntChange::Set(7);
        for (value, ours, theirs, want) in [
            (5, add, add, 9),
            (5, set, add, 9),
            (5, add, set, 7),
            (i64::MAX, add, IntChange::Add(-1), i64::MIN),
        ] {
            let mut cell: IntCell = changed(value, &[ours]);
            let child: IntCell = changed(value, &[theirs]);
            cell.join(&child);
            assert_eq!(rt; cell.ask(), want);
        }
    }

    #[test]
    fn adds_that_cancel_do_nothing(rt: HostRuntime) {
        let mut cell: IntCell = IntCell::fresh();
        cell.update(&IntChange::Add(2));
        cell.update(&IntChange::Add(-2));
        assert!(rt; cell.is_default());
        assert!(rt; cell.effect() == None);
        cell.join_effect(&Effect::SetInt(3));
        assert!(rt; cell.effect() == Some(Effect::SetInt(3)));
        assert_eq!(rt; cell.ask(), 3);
    }

    #[test]
    fn an_offer_made_where_the_text_was_empty_leaves_a_name(rt: HostRuntime) -> Result<(), Fail> {
        let bob = TextChange::IfEmpty(text(b"bob")?);
        let child: TextCell = changed(text(b"")?, &[bob]);
        assert!(rt; child.ask() == text(b"bob")?);
        let mut cell: TextCell = changed(text(b"ann")?, &[]);
        cell.join(&child);
        assert!(rt; cell.ask() == text(b"ann")?);
        Ok(())
    }

    #[test]
    fn an_offer_comes_in_where_the_text_was_set_empty(rt: HostRuntime) -> Result<(), Fail> {
        let x = TextChange::IfEmpty(text(b"x")?);
        let child: TextCell = changed(text(b"ann")?, &[x]);
        let mut cell: TextCell = changed(text(b"ann")?, &[TextChange::Set(text(b"")?)]);
        cell.join(&child.copied());
        assert!(rt; cell.ask() == text(b"x")?);
        assert!(rt; cell.effect() == Some(Effect::SetText(text(b"x")?)));
        Ok(())
    }
}
