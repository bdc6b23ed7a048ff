// Whether operations over values have room in one word; what each needs of a machine.
#![tactic(auto)]

pub mod items;
mod room;

pub use room::{
    fits_by_room_law, has_room, home_of, room_alone_law, room_law, room_shrinks_law,
    room_where_covered_law,
};
