// Two right uses of slips. tools/slip_misuse makes of each the misuse beside it, which the compiler refuses.
ghost use Rattle.std.specs.Prelude.{◌≡◌, ◌+◌, IfOk, Err};
ghost use Rattle.store.specs.declared.refusal.Refusal.TheVariants.{WorkPage};
ghost use Rattle.store.specs.Ends.{Abandons};

use medium::Medium;
use store::{Refusal, Slip, Store};

// Puts a key with no work page at all, which is refused, and abandons the edit: the put has changed nothing.
pub fn refused_then_abandoned<M: Medium>(
    store: &mut Store<M>,
    slip: Slip,
    key: u32,
) -> (Result<(), Refusal>, Result<(), Refusal>)
    ensures refused { result.0 ≡ Err WorkPage }
    ensures abandoned { Abandons M.Medium.meaning slip.number store.old.medium store.new.medium store.old.state store.new.state store.old.edit result.1 }
{
    let put = store.put(&mut [], &slip, key, &[]);
    let end = store.abandon(slip);
    (put, end)
}

// Saves an edit, and the next one under its own slip. The counter is then one more than the first slip's number.
pub fn saved_twice_with_two_slips<M: Medium>(
    store: &mut Store<M>,
    slip: Slip,
) -> Result<u32, Refusal>
    ensures { IfOk result (λ counter. counter ≡ slip.number + 1) }
{
    store.save(slip)?;
    let next = store.begin()?;
    let (counter, _) = store.save(next)?;
    Ok(counter)
}
