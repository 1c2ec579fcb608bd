// Texts that are no trace: the lines of refusals, the help and the version.
ghost use Rattle.std.specs.Prelude.{◌≡◌, ◌≢◌, ◌⊎◌, ℕ, List, false};
ghost use Rattle.kc_base.specs.Causes.{Rose};
ghost use Rattle.kc_kit_files.specs.Response.{says, reports, IsSaid};
ghost use Rattle.kc_kit_files.specs.declared.refusal.Refusal.TheVariants as refusals;
ghost use Rattle.kc_kit_files.specs.Ended.{EndsPrinting};
ghost use Rattle.kc_kit_files.specs.Outside.{Prints, shown_by};

use crate::ended::{Ended, Said};
use crate::{Refusal, Status};
use kc_base::Sink;
use kc_trace::TraceOut;

// Prints a text, which is all that this status prints, whatever is said of it in words.
fn print<S: Sink>(out: &mut TraceOut<S>, text: &[u8], status: Status) -> Status
    requires ready { out.old.failed ≡ false }
    requires wrote { (status ≢ Status.WriteFault) × (status ≢ Status.NoMemory) }
    ensures response { (diagnostic : List ℕ) → Prints (λ response. response ≡ reports status text.now diagnostic) (shown_by S.written S.faults out.old.sink) result (shown_by S.written S.faults out.new.sink) }
    ensures status { (result ≡ status) ⊎ (result ≡ Status.WriteFault) }
{
    out.put_text(text);
    if out.failed() {
        Status::WriteFault
    } else {
        status
    }
}

/// Prints a text, which is all that this status prints.
pub fn say<S: Sink>(out: &mut TraceOut<S>, text: &[u8], status: Status) -> Status
    requires ready { out.old.failed ≡ false }
    requires wrote { (status ≢ Status.WriteFault) × (status ≢ Status.NoMemory) }
    ensures response { Prints (λ response. response ≡ says status text.now) (shown_by S.written S.faults out.old.sink) result (shown_by S.written S.faults out.new.sink) }
    ensures status { (result ≡ status) ⊎ (result ≡ Status.WriteFault) }
{
    print(out, text, status)
}

/// Prints a text, which is all that this status prints, and gives how the command has ended, with what is said of it in words.
pub fn report<S: Sink>(
    out: &mut TraceOut<S>,
    text: &[u8],
    status: Status,
    diagnostic: Vec<u8>,
) -> Ended<'static>
    requires ready { out.old.failed ≡ false }
    requires wrote { (status ≢ Status.WriteFault) × (status ≢ Status.NoMemory) }
    ensures response { EndsPrinting (λ response. response ≡ reports status text.now diagnostic.items) (shown_by S.written S.faults out.old.sink) result (shown_by S.written S.faults out.new.sink) }
    ensures status { (result.status ≡ status) ⊎ (result.status ≡ Status.WriteFault) }
{
    let status = print(out, text, status);
    let said = Said::Refusal(diagnostic);
    Ended { status, said }
}

/// Prints the line of a refusal, and gives how the command has ended, with the diagnostic of the refusal. It takes no memory: it
/// answers that memory ran out only where the refusal is that.
pub fn refuse<S: Sink>(out: &mut TraceOut<S>, refusal: Refusal) -> Ended<'static>
    requires { out.old.failed ≡ false }
    ensures response { EndsPrinting (IsSaid refusal) (shown_by S.written S.faults out.old.sink) result (shown_by S.written S.faults out.new.sink) }
    ensures memory { result.status ≡ Status.NoMemory → refusal ≡ refusals.NoMemory }
{
    match refusal {
        Refusal::Says {
            cause,
            line,
            diagnostic,
        } => report(out, &line, cause.status(), diagnostic),
        Refusal::NoMemory => Ended::by(Status::NoMemory),
    }
}
