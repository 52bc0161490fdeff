ghost use Rattle.std.specs.Prelude.{map};
ghost use Rattle.log_input.specs.Loads.{LoadGives, LoadLaw};

use line::{LineStore, StoreFault};

// Puts lines behind those of the store, up to the first that it refuses.
pub fn load_lines<L: LineStore>(store: &mut L, log: &[&[u8]]) -> Result<(), StoreFault>
    ensures list { LoadGives L.lines L.capacity L.charge store.old (map (λ x. x.now) log.now) result store.new }
    ensures law { LoadLaw }
{
    for line in log {
        store.insert(store.count(), line)?;
    }
    Ok(())
}
