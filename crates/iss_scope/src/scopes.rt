//! Which merchants a control's scope covers.
ghost use Rattle.std.specs.Prelude.{◌≡◌};
ghost use Rattle.iss_model.specs.rules.Controls.{covers};

use crate::Groups;
use iss_model::{Scope, Token};

/// Whether a scope covers a merchant, by its merchant category code of ISO 18245 or by its id. A group that isn't there covers nobody.
pub fn covers(groups: &Groups, scope: &Scope, mcc: u16, mid: &Token) -> bool
    ensures { result ≡ covers groups.now scope.now mcc mid.now }
{
    match scope {
        Scope::All => true,
        Scope::Mcc(code) => *code == mcc,
        Scope::Group(name) => groups.holds(name, mcc),
        Scope::Mid(merchant) => merchant == mid,
    }
}
