ghost use Rattle.std.specs.Prelude.{◌≡◌};
ghost use Rattle.machine.specs.Model.{Model, Lawful};

/// A machine gives each name an action, and each path the queries that it meets. Everything above it is generic over this interface.
pub trait Machine {
    type Action: Copy;

    type Plain: Copy;

    ghost model: { Self → Model Self.Action Self.Plain };

    /// The action of no name.
    fn stay(&self) -> Self::Action
        ensures { result ≡ (model self.now).stay };

    fn action_of(&self, name: &[u8]) -> Self::Action
        ensures { result ≡ (model self.now).action name.now };

    /// One action and then another.
    fn then(&self, a: &Self::Action, b: &Self::Action) -> Self::Action
        ensures { result ≡ (model self.now).then a.now b.now };

    /// The queries that an action marks.
    fn marks(&self, a: &Self::Action) -> [bool; 8]
        ensures { result ≡ (model self.now).marks a.now };

    /// The form in which a list keeps an action.
    fn plain(&self, a: &Self::Action) -> Self::Plain
        ensures { result ≡ (model self.now).plain a.now };

    /// The action of any plain form.
    fn back(&self, p: &Self::Plain) -> Self::Action
        ensures { result ≡ (model self.now).back p.now };

    ghost lawful: { (m : Self) → Lawful (model m) };
}
