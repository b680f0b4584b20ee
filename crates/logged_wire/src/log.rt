// Where the lines of a log are put.
ghost use Rattle.std.specs.Prelude.{◌≡◌, ◌++◌, ◌∷◌, [], List, ℕ, OnOk, OnErr};

use edge_io::Failed;

/// Where the lines of a log are put.
pub trait AccessLog {
    /// The lines that were put, in their order.
    ghost lines: { Self → List (List ℕ) };

    /// Puts a line. Where that fails it is no line of the log, though some of its bytes may have gone out.
    fn put(&mut self, line: &[u8]) -> Result<(), Failed>
        ensures put { OnOk result (lines self.new ≡ lines self.old ++ line.now ∷ []) }
        ensures missed { OnErr result (lines self.new ≡ lines self.old) };
}
