ghost use Rattle.std.specs.Prelude.{◌≡◌};
ghost use Rattle.cb_node.specs.Linking.{link_label};

use cb_base::Shared;
use cb_crew::{Fresh, Work};
use cb_peers::Link;
use cb_session::Input;

/// A connection that isn't opened yet. Its work and its link are of one connection.
#[derive(Drop)]
pub struct NextConnection<W: Work<Item = Input>> {
    /// What serves it.
    pub work: Fresh<W>,
    /// What its threads share with the node.
    pub link: Shared<Link>,
    ghost of_one: { W.label work ≡ link_label link },
}
