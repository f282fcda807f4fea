//! The laws of what a room does. Nothing here has a body; what holds is in the contracts.
ghost use Rattle.ent_room.specs.Acts.{Advances, OnlyShifts};
ghost use Rattle.ent_room.specs.Room.{Room as RoomSeen};

/// What advances twice advances, and so does what only shifts.
pub(crate) fn acts_go_on()
    ensures stays { (r : RoomSeen) → Advances r r }
    ensures advances { (first between last : RoomSeen)
        → Advances first between
        → Advances between last
        → Advances first last }
    ensures shifts { (first between last : RoomSeen)
        → OnlyShifts first between
        → OnlyShifts between last
        → OnlyShifts first last }
    ensures same { (r : RoomSeen) → OnlyShifts r r }
    ensures shifting { (old new : RoomSeen) → OnlyShifts old new → Advances old new }
{
    ent_admission::acts_go_on();
}
