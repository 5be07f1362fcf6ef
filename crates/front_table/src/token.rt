// The writer of a chronicle and its fronts.
ghost use Rattle.std.specs.Prelude.{◌≡◌, ◌+◌, ◌<◌, ◌^◌, [], ◌∷◌, ◌++◌, length, IfOk};
ghost use mathlib.Core.List.{IsPrefix};
ghost use Rattle.front_table.specs.TokenView.{longer};

use crate::rule::{Appends, Chronicle, Copies, Looks, Meets, Named};
use crate::view::View;
use atomic_table::{Seat, Table};
use cloud_base::Memory;
use std::alloc::Global;
use std::marker::{Brand, Model};
use std::sync::Arc;

// Word 0 is the number of entries.
type Board<E> = Table<(), View<E>, (), Chronicle, Global>;

/// The one who appends to a chronicle, a list that grows at its end. Contracts see which chronicle
/// it is and the whole list. At run time there is only its length, and no entry is stored.
#[derive(Drop)]
pub struct Writer<E> {
    board: Arc<Board<E>, Global>,
    seat: Seat<(), View<E>>,
}

impl<E> Model for Writer<E> {
    ghost use Rattle.std.specs.Prelude.{true};
    ghost use Rattle.std.specs.Arc.{arc_value};
    ghost use Rattle.front_table.specs.TokenView.{TokenView, token_view_coded};
    ghost use Rattle.front_table.specs.Chronicle.{IsSeated};

    ghost Value = { TokenView E };

    ghost coded = { token_view_coded E.code };

    ghost view = { λ w. record { chronicle = w.seat.table_id; list = w.seat.me.0.list } };

    ghost invariant = { λ w.
        IsSeated true (arc_value w.board).shared.table_id w.seat.table_id w.seat.me };
}

/// A beginning of a chronicle. Contracts see which chronicle it is of and the list. Whoever holds
/// it knows that the writer's list begins so, now and later.
#[derive(Drop)]
pub struct Front<E> {
    board: Arc<Board<E>, Global>,
    seat: Seat<(), View<E>>,
    count: u64,
}

impl<E> Model for Front<E> {
    ghost use Rattle.std.specs.Prelude.{◌≡◌, length, false};
    ghost use Rattle.std.specs.Arc.{arc_value};
    ghost use Rattle.front_table.specs.TokenView.{TokenView, token_view_coded};
    ghost use Rattle.front_table.specs.Chronicle.{IsSeated};

    ghost Value = { TokenView E };

    ghost coded = { token_view_coded E.code };

    ghost view = { λ f. record { chronicle = f.seat.table_id; list = f.seat.me.0.list } };

    ghost invariant = { λ f.
        IsSeated false (arc_value f.board).shared.table_id f.seat.table_id f.seat.me
        × (f.count ≡ length f.seat.me.0.list) };
}

impl<E> Writer<E> {
    /// The writer of a new chronicle.
    pub fn new(alloc: Global) -> Result<Writer<E>, Memory>
        ensures { IfOk result (λ writer. writer.list ≡ []) }
    {
        let (board, seat) = Board::of_words(alloc, &[0], &())?;
        let board = Arc::new(alloc, board)?;
        Ok(Writer { board, seat })
    }

    // A step has no parameter of its own, so N names the entry to it.
    fn append_named<N: Named<E>>(&mut self, entry: &E)
        requires one { N.entries ≡ entry.now ∷ [] }
        requires room { length self.old.list + 1 < 2 ^ 64 }
        ensures list { self.new.list ≡ self.old.list ++ entry.now ∷ [] }
        ensures same { self.new.chronicle ≡ self.old.chronicle }
    {
        let _ = entry;
        self.board
            .shared
            .fetch_add::<Appends<N>>(&mut self.seat, 0, 1);
    }

    /// Puts an entry at the end, by one fetch-and-add. It takes no memory.
    pub fn append(&mut self, entry: &E)
        requires room { length self.old.list + 1 < 2 ^ 64 }
        ensures list { self.new.list ≡ self.old.list ++ entry.now ∷ [] }
        ensures same { self.new.chronicle ≡ self.old.chronicle }
    {
        self.append_named::<Brand>(entry);
    }

    /// A front of the whole list. The writer stays as it was, also where memory runs out.
    pub fn front(&mut self) -> Result<Front<E>, Memory>
        ensures whole { IfOk result (λ front. front ≡ self.old) }
        ensures same { self.new ≡ self.old }
    {
        let board = Arc::try_clone(&self.board)?;
        let count = board.shared.load::<Looks>(&mut self.seat, 0);
        let seat = board.shared.split_seat::<Copies>(&mut self.seat);
        Ok(Front { board, seat, count })
    }

    /// Tells that a front's list is a beginning of the writer's. It takes no memory.
    pub fn meet(&mut self, front: Front<E>)
        requires chronicle { front.chronicle ≡ self.old.chronicle }
        ensures prefix { IsPrefix front.list self.new.list }
        ensures same { self.new ≡ self.old }
    {
        let Front {
            board,
            seat,
            count: _,
        } = front;
        self.board.shared.join_seat::<Meets>(&mut self.seat, seat);
        self.board.shared.load::<Looks>(&mut self.seat, 0);
        drop(board);
    }
}

impl<E> Front<E> {
    /// The number of entries.
    pub fn len(&self) -> u64
        ensures { result ≡ length self.now.list }
    {
        self.count
    }

    /// A second front of the same list. This one stays as it was, also where memory runs out.
    pub fn copy(&mut self) -> Result<Front<E>, Memory>
        ensures whole { IfOk result (λ front. front ≡ self.old) }
        ensures same { self.new ≡ self.old }
    {
        let board = Arc::try_clone(&self.board)?;
        let seat = board.shared.split_seat::<Copies>(&mut self.seat);
        let count = self.count;
        Ok(Front { board, seat, count })
    }

    /// Takes another front in: the longer list stays. It takes no memory.
    pub fn meet(&mut self, other: Front<E>)
        requires chronicle { other.chronicle ≡ self.old.chronicle }
        ensures longer { self.new.list ≡ longer self.old.list other.list }
        ensures own { IsPrefix self.old.list self.new.list }
        ensures others { IsPrefix other.list self.new.list }
        ensures same { self.new.chronicle ≡ self.old.chronicle }
    {
        let Front { board, seat, count } = other;
        self.board.shared.join_seat::<Meets>(&mut self.seat, seat);
        self.board.shared.load::<Looks>(&mut self.seat, 0);
        if self.count < count {
            self.count = count;
        }
        drop(board);
    }
}

#[cfg(test)]
mod tests {
    use super::*;
    use std::test::Fail;
    use std::thread;
    use std::thread::Threads;

    #[test]
    fn fronts_of_two_entries_meet(rt: HostRuntime) -> Result<(), Fail> {
        let mut writer = Writer::<u32>::new(rt.alloc())?;
        writer.append(&5);
        let mut one = writer.front()?;
        writer.append(&6);
        let mut two = writer.front()?;
        assert_eq!(rt; [one.len(), two.len()], [1, 2]);
        let copy_of_one = one.copy()?;
        let mut longer_first = two.copy()?;
        assert_eq!(rt; [copy_of_one.len(), longer_first.len()], [1, 2]);
        longer_first.meet(copy_of_one);
        one.meet(two);
        assert_eq!(rt; [one.len(), longer_first.len()], [2, 2]);
        writer.meet(one);
        writer.meet(longer_first);
        assert_eq!(rt; writer.front()?.len(), 2);
        Ok(())
    }

    fn append_twice<E>(mut writer: Writer<E>, entry: &E) -> Writer<E>
        requires room { length writer.list + 2 < 2 ^ 64 }
        ensures list { result.list ≡ writer.list ++ entry.now ∷ entry.now ∷ [] }
        ensures same { result.chronicle ≡ writer.chronicle }
    {
        writer.append(entry);
        writer.append(entry);
        writer
    }

    // One thread appends, and the other meets two fronts.
    fn apart<R: Threads + Sync, E: Sync>(
        rt: &R,
        writer: Writer<E>,
        entry: &E,
        mut one: Front<E>,
        two: Front<E>,
    ) -> (Writer<E>, Front<E>)
        requires room { length writer.list + 2 < 2 ^ 64 }
        requires chronicle { (one.chronicle ≡ writer.chronicle)
            × (two.chronicle ≡ writer.chronicle) }
        ensures list { result.0.list ≡ writer.list ++ entry.now ∷ entry.now ∷ [] }
        ensures front { result.1.list ≡ longer one.list two.list }
        ensures chronicle { (result.0.chronicle ≡ writer.chronicle)
            × (result.1.chronicle ≡ writer.chronicle) }
    {
        thread::join(
            rt,
            move || append_twice(writer, entry),
            move || {
                one.meet(two);
                one
            },
        )
    }

    #[test]
    fn a_thread_appends_while_another_meets(rt: HostRuntime) -> Result<(), Fail> {
        let mut writer = Writer::<u32>::new(rt.alloc())?;
        writer.append(&5);
        let one = writer.front()?;
        writer.append(&6);
        let two = writer.front()?;
        let (mut writer, mut front) = apart(&rt, writer, &7, one, two);
        assert_eq!(rt; front.len(), 2);
        front.meet(writer.front()?);
        assert_eq!(rt; front.len(), 4);
        writer.meet(front);
        Ok(())
    }
}
