// Two ends of one link in one process: what each call answers, and what becomes of the blocks.
#![tactic(auto)]

mod acts;
mod calls;
mod ends;
mod pictures;
mod texts;

fn main(rt: HostRuntime) {
    let rt = &rt;
    acts::legend(rt);
    let mut ends = acts::open(rt);
    acts::bind(rt, &mut ends);
    acts::store(rt, &mut ends);
    acts::hold(rt, &mut ends);
    let held = ends.answer;
    acts::ask(rt, &mut ends);
    acts::reply(rt, &mut ends);
    ends.answer = held;
    ends.view(rt);
    acts::spoil(rt, &mut ends);
    acts::mend(rt, &mut ends);
    acts::lose(rt, &mut ends);
    acts::wait(rt, &mut ends);
    ends.answer = held;
    acts::release(rt, &mut ends);
}
