//! How a world goes on: along a schedule, and by rounds.
ghost use Rattle.std.specs.Prelude.{◌≡◌, IsErr, OnOk, false, true};
ghost use Rattle.herm_world.specs.Going.{AreRounds, GoesOn, IsARound, IsAlong, IsStepped};
ghost use Rattle.herm_world.specs.Worlds.{IsOfSame};

use crate::world::{World, WorldStep};
use std::alloc::AllocError;

/// More rounds than there are in any run: each but the last makes an event.
const MOST_ROUNDS: u64 = 1024 * (1_000_000 + 16_384) + 1;

/// The step of the process of this number, if it was made.
fn pass(world: &mut World, p: u32) -> Result<(), AllocError>
    requires alive { world.old.is_dead ≡ false }
    ensures goes { OnOk result (GoesOn (IsStepped p) world.old world.new) }
    ensures alive { OnOk result (world.new.is_dead ≡ false) }
    ensures same { IsOfSame world.old world.new }
    ensures failed { IsErr result → world.new.is_dead ≡ true }
{
    world.keeps();
    if !world.is_made(p) {
        return Ok(());
    }
    let step = world.step(p);
    if matches!(step, WorldStep::Memory) {
        return Err(AllocError);
    }
    Ok(())
}

/// The steps of the processes of these numbers in order.
pub fn go_along(world: &mut World, schedule: &[u32]) -> Result<(), AllocError>
    requires alive { world.old.is_dead ≡ false }
    ensures goes { OnOk result (GoesOn (IsAlong schedule.now) world.old world.new) }
    ensures same { IsOfSame world.old world.new }
    ensures failed { IsErr result → world.new.is_dead ≡ true }
{
    for p in schedule {
        pass(world, *p)?;
    }
    Ok(())
}

/// One round: a step of each process that can step then, by rising number.
fn go_round(world: &mut World) -> Result<(), AllocError>
    requires alive { world.old.is_dead ≡ false }
    ensures goes { OnOk result (GoesOn IsARound world.old world.new) }
    ensures alive { OnOk result (world.new.is_dead ≡ false) }
    ensures same { IsOfSame world.old world.new }
    ensures failed { IsErr result → world.new.is_dead ≡ true }
{
    let mut from = 1;
    'turns: while let Some(p) = world.next_from(from) {
        pass(world, p)?;
        from = p + 1;
    }
    Ok(())
}

/// Rounds until no process can step.
pub fn go_rounds(world: &mut World) -> Result<(), AllocError>
    requires alive { world.old.is_dead ≡ false }
    ensures goes { OnOk result (GoesOn AreRounds world.old world.new) }
    ensures same { IsOfSame world.old world.new }
    ensures failed { IsErr result → world.new.is_dead ≡ true }
{
    world.keeps();
    'rounds: for round in 0..MOST_ROUNDS {
        if world.is_over() {
            return Ok(());
        }
        go_round(world)?;
    }
    unreachable!()
}
