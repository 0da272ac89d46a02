//! Slips: what a beginning hands out, and a collection or a withdrawal spends.
ghost use Rattle.std.specs.Prelude.{◌≡◌, not, ◌==◌};
ghost use Rattle.protocol.specs.declared.Refusal.TheVariants.{OtherRegister};
ghost use Rattle.register.specs.Checks.{refused_when};
ghost use Rattle.register.specs.Memory.{back};

use protocol::Refusal;

/// The slip of one entry: the register's number and the station's.
///
/// It is neither `Copy` nor `Drop`: a program that lets one lapse, or spends one twice, does not pass its check.
pub struct Slip {
    pub(crate) register: u32,
    pub(crate) station: usize,
}

/// A refused collection or withdrawal: the slip comes back beside the refusal.
pub struct Refused {
    pub slip: Slip,
    pub refusal: Refusal,
}

impl Slip {
    /// The check that the slip is one of the register of this number.
    pub(crate) fn check_register(&self, number: u32) -> Result<(), Refusal>
        ensures { result ≡ refused_when (not (self.now.register == number)) OtherRegister }
    {
        if self.register == number {
            Ok(())
        } else {
            Err(Refusal::OtherRegister)
        }
    }

    /// Spends the slip where its call was accepted. A refusal hands it back.
    pub(crate) fn spend<A>(self, said: Result<A, Refusal>) -> Result<A, Refused>
        ensures { result ≡ back self said }
    {
        // No `map_err`: the slip has to end in the other case too.
        match said {
            Ok(answer) => {
                let Slip {
                    register: _,
                    station: _,
                } = self;
                Ok(answer)
            }
            Err(refusal) => Err(Refused {
                slip: self,
                refusal,
            }),
        }
    }
}
