// Searches a dictionary: standard input is a query line and an FSW dictionary (document 01, "The search program").
#![tactic(auto)]

fn main(rt: HostRuntime) {
    if let Err(untold) = input::answer_by(&mut rt.stdin(), &mut rt.stdout(), report::report) {
        let _ = eprintln!(rt; "search: {untold}");
    }
}
