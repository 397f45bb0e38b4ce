// The circular's three portfolios, each a title and its rows.
ghost use Rattle.std.specs.Prelude.{◌≤◌, length};

use crate::Holding;
use kinds::{Listed, Side};

// A portfolio: its title, and its positions in the order of their rows.
#[derive(Clone, Copy)]
pub struct Portfolio<'a> {
    pub title: &'a str,
    pub holdings: &'a [Holding<'a>],
    // few enough for a total to fit its type
    ghost few: { length holdings.now ≤ 128 },
}

const JA03: Holding<'static> = Holding {
    name: "DOL-JA03",
    option: Listed {
        side: Side::Call,
        strike: 375_000,
    },
    quantity: 60,
};

const JA04: Holding<'static> = Holding {
    name: "DOL-JA04",
    option: Listed {
        side: Side::Call,
        strike: 380_000,
    },
    quantity: -30,
};

const JA05: Holding<'static> = Holding {
    name: "DOL-JA05",
    option: Listed {
        side: Side::Call,
        strike: 385_000,
    },
    quantity: -30,
};

const JA99: Holding<'static> = Holding {
    name: "DOL-JA99",
    option: Listed {
        side: Side::Put,
        strike: 200_000,
    },
    quantity: -30,
};

pub const PORTFOLIO_1: Portfolio<'static> = Portfolio {
    title: "Portfolio 1: one sold call",
    holdings: &[JA04],
};

pub const PORTFOLIO_2: Portfolio<'static> = Portfolio {
    title: "Portfolio 2: portfolio 1, one more sold call and a sold put",
    holdings: &[JA04, JA05, JA99],
};

pub const PORTFOLIO_3: Portfolio<'static> = Portfolio {
    title: "Portfolio 3: portfolio 2 and bought calls that cover its sold calls",
    holdings: &[JA03, JA04, JA05, JA99],
};
