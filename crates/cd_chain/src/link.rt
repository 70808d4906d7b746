ghost use Rattle.std.specs.Prelude.{◌≡◌, ◌<◌, ℕ, eqb, if◌then◌else◌};
ghost use Rattle.cd_chain.specs.Lanes.{lane_link};

// Where a slot stands in one lane: in which list, behind which slot and before which.
#[derive(Clone, Copy, Debug)]
pub(crate) struct Link {
    pub(crate) list: Option<u32>,
    pub(crate) before: Option<u32>,
    pub(crate) after: Option<u32>,
}

// The link of a slot that stands in no list of a lane.
pub(crate) const NO_LINK: Link = Link {
    list: None,
    before: None,
    after: None,
};

// The links of a slot in the three lanes.
#[derive(Clone, Copy, Debug)]
pub(crate) struct Links {
    pub(crate) first: Link,
    pub(crate) second: Link,
    pub(crate) third: Link,
}

// The links of a slot that stands in no list.
pub(crate) const NO_LINKS: Links = Links {
    first: NO_LINK,
    second: NO_LINK,
    third: NO_LINK,
};

// The link of a lane.
pub(crate) fn lane_link(links: &Links, lane: u8) -> Link
    ensures { result ≡ lane_link links.now lane }
{
    match lane {
        0 => links.first,
        1 => links.second,
        2 => links.third,
        _ => NO_LINK,
    }
}

// The links with another one for a lane.
pub(crate) fn with_lane(links: &Links, lane: u8, link: Link) -> Links
    requires { lane < 3 }
    ensures { (l : ℕ) → lane_link result l ≡ (if eqb l lane then link else lane_link links.now l) }
{
    match lane {
        0 => Links {
            first: link,
            ..*links
        },
        1 => Links {
            second: link,
            ..*links
        },
        _ => Links {
            third: link,
            ..*links
        },
    }
}
