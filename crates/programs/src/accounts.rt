// Who is accepted, and who may run what.
ghost use Rattle.std.specs.Prelude.{◌≡◌};
ghost use Rattle.programs.specs.Grants.{Grants};

// The value stands for one connection: a proof is right in that connection alone.
pub trait Accounts {
    ghost grants: { Self → Grants };

    fn is_right(&self, user: u8, proof: &[u8; 32]) -> bool
        ensures { result ≡ (grants self.now).accepts user proof.now };

    fn may_run(&self, user: u8, command: u8) -> bool
        ensures { result ≡ (grants self.now).may user command };
}
