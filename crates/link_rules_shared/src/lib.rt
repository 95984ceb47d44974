//! What the rules of messages and the rules of bundles share, and which node a node ID names.
#![tactic(auto)]

mod broken;
mod doubt;
mod dtn;
mod flags;
mod heads;
mod level;
mod node_id;
mod nodes;
mod unread;
mod uri;

pub use broken::broken_of;
pub use doubt::Doubt;
pub use dtn::{demux_level, demux_of, is_dtn_name};
pub use flags::has_other_flags;
pub use heads::{HeadWalk, is_long};
pub use level::{Level, NAME_MAX};
pub use node_id::{is_unjudged, is_uri};
pub use nodes::{is_node_of, names_node};
pub use unread::{Prefix, Unread};
pub use uri::{after_mark, first_of, is_word};
