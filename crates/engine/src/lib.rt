// The engine interface: an engine is known by the meaning of its states.
#![tactic(auto)]

ghost use Rattle.std.specs.Prelude.{◌≡◌, false, Decides};
ghost use Rattle.line.specs.Lines.{Line, is_line};
ghost use Rattle.engine.specs.Model.{Model, Sized, SizedStep, no_line, row_width, step_rows};
ghost use Rattle.engine.specs.Promise.{StepGives, CloseGives};

// The bytes of a row.
pub const ROW_WIDTH: usize = 72;

// The most rows that a step or a close gives.
pub const STEP_ROWS: usize = 4;

// The width of a row and the most rows of a step, as the definitions have them. Each such function ties one constant to its own
// definition, so there is nothing that a generic one could share.
pub fn row_width() -> usize
    ensures { result ≡ row_width }
{
    ROW_WIDTH
}

pub fn step_rows() -> usize
    ensures { result ≡ step_rows }
{
    STEP_ROWS
}

// Step and close write their rows to the front of such a buffer and answer their number; what stands behind is kept, which is a rule
// for every engine, and no list of rows could promise it.
pub type RowBuffer = [u8; STEP_ROWS * ROW_WIDTH];

// Why an engine refuses a line: one of the engine's causes, and the column at which it was seen. A cause is a number and not an enum,
// since every engine, a customer's too, has causes of its own.
#[derive(Clone, Copy, PartialEq, Eq, Debug)]
pub struct EngineFault {
    pub cause: u8,
    pub column: usize,
}

pub trait Engine {
    type State: Copy;

    // What states mean: two states of one meaning are the same to everyone who uses the engine.
    ghost Meaning: { Type 0 };

    ghost means: { Self.State → Meaning };

    ghost model: { Self → Model Meaning };

    // The state before the first line.
    fn start(&self) -> Self::State
        ensures { means result ≡ (model self.now).start };

    // One line: the state after it, and the number of rows at the front of the buffer; or the fault, with state and buffer as they were. The
    // state stands beside the answer, since a refused step hands it back by the rules.
    fn step(
        &self,
        state: Self::State,
        line: &[u8],
        rows: &mut RowBuffer,
    ) -> (Self::State, Result<usize, EngineFault>)
        ensures { StepGives means ((model self.now).step (means state) line.now) state rows.old result.0 result.1 rows.new };

    // The end of the text: the number of rows at the front of the buffer.
    fn close(&self, state: Self::State, rows: &mut RowBuffer) -> usize
        ensures { CloseGives ((model self.now).close (means state)) rows.old result rows.new };

    // Whether two states have one meaning.
    fn same(&self, a: &Self::State, b: &Self::State) -> bool
        ensures { Decides result (means a.now ≡ means b.now) };

    ghost steps: { (e : Self) (m : Meaning) (l : Line) → SizedStep ((model e).step m l) };

    ghost closes: { (e : Self) (m : Meaning) → Sized ((model e).close m) };

    ghost lines: { (e : Self) (m : Meaning) (l : Line) → is_line l ≡ false → (model e).step m l ≡ no_line };
}
