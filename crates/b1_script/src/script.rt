ghost use Rattle.std.specs.Prelude.{◌≡◌};
ghost use Rattle.b1_model.specs.Versions.{version_of};

use b1_model::{CommandLists, CookieLists, Nums32, Opening, Version};

/// The peers whose turns come first, in their order.
pub type Turns = Nums32;

/// What a bus is to do.
#[derive(Debug, Drop)]
pub struct Script {
    /// The bus before the first command.
    pub opening: Opening,
    /// The commands of each peer: as many lists as peers.
    pub commands: CommandLists,
    /// Peers, each of which does one step in its turn.
    pub turns: Turns,
    /// Numbers of the caller's own, one for each command of each peer, which no bus sees: a script of version 2 has them.
    /// `None` is version 1.
    pub cookies: Option<CookieLists>,
}

impl Script {
    /// Version 2 where there are cookies, else version 1.
    pub fn version(&self) -> Version
        ensures { result ≡ version_of self.now.cookies }
    {
        match self.cookies {
            None => Version::One,
            Some(_) => Version::Two,
        }
    }
}
