// Searches a dictionary as the search program does, and lists what it finds in dictionary order (document 02, Q-12).
#![tactic(auto)]

fn main(rt: HostRuntime) {
    if let Err(untold) = input::answer_by(
        &mut rt.stdin(),
        &mut rt.stdout(),
        report::report_sorted,
    ) {
        let _ = eprintln!(rt; "wordbook: {untold}");
    }
}
