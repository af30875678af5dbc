//! What nodes tell one another of views.
use crate::install::{Install, Parts};
use rsct_packet::{List, Mask, ViewId};

/// A packet of a view that is to be.
pub enum ViewPacket {
    /// Whoever is in `mask` is to answer for this view.
    Prepare {
        view: ViewId,
        mask: Mask,
    },
    /// The sender promised the view, and comes from the view `old` with these lists.
    Answer {
        view: ViewId,
        old: ViewId,
        parts: Parts,
    },
    /// The sender has promised a greater view, of this number.
    Refuse {
        view: ViewId,
        number: u32,
    },
    /// The view is to be entered.
    Install {
        install: Install,
    },
    /// The sender has entered the view.
    Taken {
        view: ViewId,
    },
}

// Written out: a drop is one call then, whose proof is made once.
impl Drop for ViewPacket {
    fn drop(self) {
        match self {
            ViewPacket::Prepare { view: _, mask: _ } => {}
            ViewPacket::Answer {
                view: _,
                old: _,
                parts: _parts,
            } => {}
            ViewPacket::Refuse { view: _, number: _ } => {}
            ViewPacket::Install { install: _install } => {}
            ViewPacket::Taken { view: _ } => {}
        }
    }
}

/// A packet of a view on its way to a node.
#[derive(Drop)]
pub struct ViewSend {
    pub to: u8,
    pub packet: ViewPacket,
}

/// In the order of sending.
pub type ViewSends = List<ViewSend>;
