//! Results by reference: a function that goes down the tree with references alone holds no result
//! in a frame at each level.
ghost use Rattle.std.specs.Prelude.{◌≡◌};
ghost use Rattle.radix_nodes.specs.Nodes.{returned};

use radix_keys::Memory;

/// Writes a result by value to where a call by reference leaves it.
pub fn write_result<T: Drop>(out: &mut T, outcome: Result<T, Memory>) -> Result<(), Memory>
    ensures { returned result out.new ≡ outcome }
{
    match outcome {
        Ok(found) => {
            *out = found;
            Ok(())
        }
        Err(e) => Err(e),
    }
}

/// The result by value of a call by reference.
pub fn result_of<T: Drop>(told: Result<(), Memory>, out: T) -> Result<T, Memory>
    ensures { result ≡ returned told out }
{
    match told {
        Ok(()) => Ok(out),
        Err(e) => Err(e),
    }
}
