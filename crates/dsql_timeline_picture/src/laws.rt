//! Laws of pictures. Each is the contract of a function that does nothing.
ghost use Rattle.std.specs.Prelude.{◌≡◌, ◌++◌, ◌+◌, List, All, map, length};
ghost use Rattle.std.specs.List.{enumerate_from, range_with_len};
ghost use Rattle.dsql_history.specs.declared.event.Event.{Event as Happened};
ghost use Rattle.dsql_script_report.specs.Lines.{line_of};
ghost use Rattle.dsql_timeline_picture.specs.Lanes.{lanes_of, conns_of, callers_of, clients_of, height};
ghost use Rattle.dsql_timeline_picture.specs.Kinds.{class_of};
ghost use Rattle.dsql_timeline_picture.specs.Pictures.{Drawn, IsWithin, bars_of, drawn_of, lanes_drawn};
ghost use Rattle.dsql_timeline_picture.specs.Worked.{WorkedPicture};

/// States that each event of a report has exactly one bar. It begins in the event's own column, has its line as its
/// title, and shows what the event is.
pub fn each_event_is_drawn_once()
    ensures columns { (events : List Happened) → map (λ (d : Drawn). (d.bar.column, d.title)) (bars_of events)
        ≡ enumerate_from 0 (map line_of events) }
    ensures classes { (events : List Happened)
        → map (λ (d : Drawn). d.bar.class) (bars_of events) ≡ map class_of events }
{}

/// States that each connection that is opened and each client has exactly one lane, in a row of its own.
pub fn each_lane_is_drawn_once()
    ensures numbers { (events : List Happened)
        → map (λ (d : Drawn). d.bar.owner) (lanes_drawn (lanes_of events) (length events))
        ≡ conns_of events ++ clients_of (callers_of events) }
    ensures rows { (events : List Happened)
        → map (λ (d : Drawn). d.bar.row) (lanes_drawn (lanes_of events) (length events))
        ≡ range_with_len 1 (length (conns_of events) + length (clients_of (callers_of events))) }
{}

/// States that each bar is within the picture.
pub fn bars_stay_within_the_picture()
    ensures { (events : List Happened) → All (IsWithin (length events) (height (lanes_of events))) (drawn_of events) }
{}

/// States the lanes and the bars of a worked report.
pub fn worked_picture()
    ensures { WorkedPicture }
{}
