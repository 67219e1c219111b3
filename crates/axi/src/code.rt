//! Response codes.
ghost use Rattle.std.specs.Prelude.{◌≡◌, ℕ};
ghost use Rattle.axi.specs.Codes.{code_number, read_code};

/// A response as the bridge gives it. It never gives EXOKAY.
#[derive(Clone, Copy, Debug, PartialEq, Eq)]
pub enum Code {
    Okay = 0,
    SlvErr = 2,
    DecErr = 3,
}

/// The number that the wires carry.
impl From<Code> for u8 {
    ghost from_gives = { λ code n. n ≡ code_number code };

    fn from(code: Code) -> u8 {
        code as u8
    }
}

/// A response of the block as the bridge reads it: EXOKAY counts as OKAY.
impl From<u8> for Code {
    ghost from_gives = { λ resp code. code ≡ read_code resp };

    fn from(resp: u8) -> Code {
        match resp {
            0 | 1 => Code::Okay,
            2 => Code::SlvErr,
            _ => Code::DecErr,
        }
    }
}
