//! Who keeps the archive, as a trait: what a call on it does, said by what a keeper tells.

ghost use Rattle.std.specs.Prelude.{◌≡◌, ◌⊎◌, ◌<◌, ◌^◌, ℕ, true, Option, IsTrue, IfOk, IfErr, IfSome, IsSomeAnd, OnOk, OnErr};
ghost use Rattle.std.specs.List.{list_all};
ghost use Rattle.iss_archive.specs.declared.post.KeepFault.TheVariants.{OutOfMemory};
ghost use Rattle.iss_archive.specs.Archived.{Archived, Told, Same, Adds, Follows, MayHaveAdded, Counts, has_one_currency, Gives};
ghost use Rattle.iss_archive.specs.Statable.{is_statable};

use crate::{Head, KeepFault, PostRow};
use iss_model::{Currency, Token};

/// Who keeps the archive.
///
/// An implementation tells what it holds, or nothing. A call's clauses speak of what is told after it, which was then told before it too.
pub trait Keeper {
    /// What is held: the head and the rows.
    ghost told: { Self → Option Archived };

    /// What a stop at this moment may leave of it.
    ghost left: { Self → Archived → Type 0 };

    /// How often calls have failed so far.
    ghost faults: { Self → ℕ };

    /// The head, if there is one.
    fn head(&mut self) -> Result<Option<Head>, KeepFault>
        ensures read { IfOk result (λ head. Told (λ a b. Same a b × (head ≡ b.head)) (told self.old) (told self.new)) }
        ensures unchanged { OnErr result (Told Same (told self.old) (told self.new)) }
        ensures stop { (a : Archived) → left self.new a → left self.old a }
        ensures cause { Counts (faults self.old) (faults self.new) result };

    /// Replaces the head and adds the rows after those that are held, both at once. It takes exactly one record.
    /// If memory ran out, all is as it was. If it failed, all is as it was, or the record is added.
    fn add(&mut self, head: &Head, rows: &[PostRow]) -> Result<(), KeepFault>
        requires next { IfSome (told self.old) (λ a. Follows a head.now rows.now) }
        requires bound { head.now.posts < 2 ^ 63 }
        requires currency { list_all has_one_currency rows.now ≡ true }
        ensures added { OnOk result (Told (Adds head.now rows.now) (told self.old) (told self.new)) }
        ensures refused { IfErr result (λ e. e ≡ OutOfMemory → Told Same (told self.old) (told self.new)) }
        ensures failed { OnErr result (Told (MayHaveAdded head.now rows.now) (told self.old) (told self.new)) }
        ensures stop { (a : Archived) → left self.new a → left self.old a ⊎ IsSomeAnd (told self.old) (λ b. Adds head.now rows.now b a) }
        ensures cause { Counts (faults self.old) (faults self.new) result };

    /// The rows with this user and currency on either side, by number. They can be put into a statement. If those that are held
    /// can't, the call fails.
    fn of_user(&mut self, user: &Token, currency: Currency) -> Result<Vec<PostRow>, KeepFault>
        ensures read { IfOk result (λ rows. Told (Gives user.now currency rows.items) (told self.old) (told self.new)) }
        ensures statable { IfOk result (λ rows. IsTrue (is_statable user.now currency rows.items)) }
        ensures unchanged { OnErr result (Told Same (told self.old) (told self.new)) }
        ensures stop { (a : Archived) → left self.new a → left self.old a }
        ensures cause { Counts (faults self.old) (faults self.new) result };

    /// If a keeper tells what it holds, a stop leaves that.
    ghost stands: { (keeper : Self) (a : Archived) → left keeper a → IfSome (told keeper) (λ held. a ≡ held) };
}
