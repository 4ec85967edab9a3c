//! What a line is answered where the shelf refuses what it is to write.
ghost use Rattle.std.specs.Prelude.{◌≡◌, IfOk};
ghost use Rattle.shelf.specs.declared.faults.ShelfFault.{ShelfFault};
ghost use Rattle.transitions.specs.Answers.{Responds, refused_by_shelf, stays};

use crate::asked::ListPlace;
use crate::response::{Response, refuses_line};
use mpd_command::Name;
use mpd_text::ErrorNumber;
use shelf::ShelfFault;
use std::alloc::{AllocError, Global};
use std::marker::Model;

/// The answers to a line for each refusal of the shelf. They are made before the shelf is asked to write,
/// since to make them can fail.
pub struct Refusals {
    list_place: ListPlace,
    name: Option<Name>,
    no_list: Response,
    exists: Response,
    no_sticker: Response,
    fault: Response,
}

// Written out, so that a proof goes through one call where it lets one go (docs/DECISIONS.md).
impl Drop for Refusals {
    fn drop(self) {
        let Refusals {
            list_place: _,
            name: _,
            no_list: _,
            exists: _,
            no_sticker: _,
            fault: _,
        } = self;
    }
}

impl Model for Refusals {
    ghost use Rattle.std.specs.Prelude.{◌≡◌, Option};
    ghost use Rattle.shelf.specs.declared.faults.ShelfFault.{ShelfFault};
    ghost use Rattle.mpd_command.specs.declared.name.Name.{Name};
    ghost use Rattle.transitions.specs.declared.asked.ListPlace.{ListPlace};
    ghost use Rattle.transitions.specs.Answers.{refused_by_shelf, stays};

    ghost Value = { ListPlace × Option Name };

    ghost view = { λ r. (r.list_place, r.name) };

    ghost invariant = { λ r.
        (r.no_list ≡ stays (refused_by_shelf r.list_place r.name ShelfFault.NoSuchList))
        × (r.exists ≡ stays (refused_by_shelf r.list_place r.name ShelfFault.Exists))
        × (r.no_sticker ≡ stays (refused_by_shelf r.list_place r.name ShelfFault.NoSticker))
        × (r.fault ≡ stays (refused_by_shelf r.list_place r.name ShelfFault.StoreFault)) };
}

impl Refusals {
    /// The answers to a line that comes so, and names this command.
    pub fn for_line(
        alloc: Global,
        list_place: ListPlace,
        name: Option<Name>,
    ) -> Result<Refusals, AllocError>
        ensures { IfOk result (λ refusals. refusals ≡ (list_place, name)) }
    {
        Ok(Refusals {
            list_place,
            name,
            no_list: shelf_refuses(alloc, list_place, name, ShelfFault::NoSuchList)?,
            exists: shelf_refuses(alloc, list_place, name, ShelfFault::Exists)?,
            no_sticker: shelf_refuses(alloc, list_place, name, ShelfFault::NoSticker)?,
            fault: shelf_refuses(alloc, list_place, name, ShelfFault::StoreFault)?,
        })
    }

    /// The answer for a refusal.
    pub fn into_response(self, fault: ShelfFault) -> Response
        ensures { result ≡ stays (refused_by_shelf self.0 self.1 fault) }
    {
        let Refusals {
            list_place: _,
            name: _,
            no_list,
            exists,
            no_sticker,
            fault: store,
        } = self;
        match fault {
            ShelfFault::NoSuchList => no_list,
            ShelfFault::Exists => exists,
            ShelfFault::NoSticker => no_sticker,
            ShelfFault::BadName | ShelfFault::StoreFault | ShelfFault::NoMemory => store,
        }
    }
}

/// What a line is answered where the shelf refuses what it asks for.
pub fn shelf_refuses(
    alloc: Global,
    list_place: ListPlace,
    name: Option<Name>,
    fault: ShelfFault,
) -> Result<Response, AllocError>
    ensures { Responds result (stays (refused_by_shelf list_place name fault)) }
{
    match fault {
        ShelfFault::NoSuchList => {
            refuses_line(
                alloc,
                list_place,
                name,
                ErrorNumber::NoExist,
                "no such playlist",
            )
        }
        ShelfFault::Exists => {
            refuses_line(
                alloc,
                list_place,
                name,
                ErrorNumber::Exist,
                "playlist exists",
            )
        }
        ShelfFault::NoSticker => {
            refuses_line(
                alloc,
                list_place,
                name,
                ErrorNumber::NoExist,
                "no such sticker",
            )
        }
        ShelfFault::BadName => refuses_line(
            alloc,
            list_place,
            name,
            ErrorNumber::System,
            "store fault",
        ),
        ShelfFault::StoreFault => {
            refuses_line(alloc, list_place, name, ErrorNumber::System, "store fault")
        }
        ShelfFault::NoMemory => refuses_line(
            alloc,
            list_place,
            name,
            ErrorNumber::System,
            "store fault",
        ),
    }
}
