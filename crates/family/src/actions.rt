// A kind of action: its reject, and whether two actions are alike.
ghost use Rattle.std.specs.Prelude.{◌≡◌, Bool};
ghost use Rattle.family.specs.Actions.{ActionLaws};

pub trait ActionKind: Copy {
    // What an action does to a route.
    type Effect: Copy;

    ghost reject: { Self };

    ghost effect: { Self → Self.Effect };

    ghost alike: { Self → Self → Bool };

    // What each `impl` must prove.
    ghost laws: { ActionLaws effect alike };

    fn rejecting() -> Self
        ensures { result ≡ reject };

    fn is_alike(self, other: Self) -> bool
        ensures { result ≡ alike self other };
}
