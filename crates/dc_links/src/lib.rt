//! Links to data components of this process.
//!
//! ```
//! let link = LockedDcs::new(alloc, dcs)?;
//! let reply = link.carry(&rt, 0, &wire);
//! ```
//!
//! A [`Link`] carries wires to data components and brings their replies. [`LockedDcs`] has each component behind a
//! lock, and workers have it perform their wires themselves. Over a [`RingLink`] each has a thread of its own, which
//! hands back what it served: the component that performed wires for it and nothing else (`specs/Serving.antt`). A
//! reply has its wire's number. Of a worker's [`Outstanding`] requests the wires for one component are carried
//! together. A link over which replies take long may leave many wires of a worker on their way (`Link::window`,
//! `Link::exchange`), and brings what came back by [`bring_to`] and [`lose_at`]. Its tests are those of `pool_tests`.
#![tactic(auto)]

mod link;
mod locked_dcs;
mod ring;
mod ring_link;
mod seat;
mod served;
mod waiting;

pub use link::{Link, Outstanding, WIRES_OF_A_WORKER, bring_to, lose_at};
pub use locked_dcs::LockedDcs;
pub use ring_link::{RingLink, ServedFrom};
pub use waiting::acquire;
