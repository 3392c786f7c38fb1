// The call script (docs/SCRIPT.md) for C: include/petrelknob_script.h declares it.
#![tactic(auto)]

ghost use Rattle.std.specs.Prelude.{◌≤◌, length};
ghost use Rattle.script.specs.Script.{result_of, Runs};

// `script::run` for C, where a slice is a pointer and a length.
#[unsafe(no_mangle)]
pub extern "C" fn petrelknob_script(
    script: &[u8],
    tx: &mut [u8],
    rx: &mut [u8],
    buffer: &mut [u8],
    out: &mut [u8],
) -> usize
    ensures run { Runs script.now tx.old rx.old buffer.old out.old (result_of result out.new tx.new rx.new buffer.new) }
    ensures fits { result ≤ length out.old }
{
    script::run(script, tx, rx, buffer, out)
}
