//! Questions on profiles: `bundle MACHINE TEXT` and `build NATIVE DEFAULT COUNT MACHINE .. COUNT RULE ..` make one and tell its
//! parts, and `decide RECORD` asks for its verdict. Of it and the filter, `compile` makes the filter, and `certify` the
//! certificate, as does `follow`, which follows each path: these tell their bytes. If there is a counterexample, `certify` tells
//! `wrong`. `check CERTIFICATE` asks the checker, and `agrees` whether their verdicts are alike on the records of the last
//! `grid COUNT NUMBER .. COUNT ARGUMENTS ..`. `keep` has the three kept for containers.

use crate::answers::Answers;
use crate::desk::{Desk, Made};
use crate::grid::Grid;
use crate::question::Question;
use crate::rules::rules_in;
use bpf_insn::Program;
use cert_check::check;
use certify::by_paths;
use kernel_check::accept;
use maker::{Evidence, judge_filter};
use profile::Profile;
use profile_json::read_bundle;
use rule_compile::compile;
use std::mem;

impl Desk {
    /// Answers a question on profiles.
    pub fn on_profile(&mut self, mut question: Question<'_>) {
        match question.part() {
            "bundle" => self.read(question),
            "build" => self.build(question),
            "grid" => self.draw(question),
            "keep" => self.keep(),
            kind => self.on_made(kind, question),
        }
    }

    // Reads the bundle `MACHINE TEXT`.
    fn read(&mut self, mut question: Question<'_>) {
        self.profile = None;
        let native = question.machine();
        match read_bundle(self.out.alloc, question.rest.as_bytes(), native) {
            Ok(bundle) => self.take(bundle.profile),
            Err(e) => self.out.tell(e),
        }
    }

    // Builds the profile of parts.
    fn build(&mut self, mut question: Question<'_>) {
        self.profile = None;
        let alloc = self.out.alloc;
        let native = question.machine();
        let default = question.verdict();
        let mut archs = Vec::new(alloc);
        for _ in 0..question.number() {
            self.out.keep(archs.push(question.machine()).is_ok());
        }
        let Some(rules) = rules_in(&mut self.out, question) else {
            return self.out.tell("no rules");
        };
        match Profile::build(alloc, native, &archs, default, rules) {
            Ok(profile) => self.take(profile),
            Err(e) => self.out.tell(e),
        }
    }

    // Takes a profile, and tells its parts.
    fn take(&mut self, profile: Profile) {
        tell_parts(&mut self.out, &profile);
        self.profile = Some(profile);
    }

    fn draw(&mut self, question: Question<'_>) {
        let is_drawn = self.grid.read(question).is_ok();
        self.out.keep(is_drawn);
    }

    // Keeps profile, filter and certificate.
    fn keep(&mut self) {
        let alloc = self.out.alloc;
        let Some(profile) = self.profile.take() else {
            return self.out.fail();
        };
        let made = Made {
            profile,
            filter: mem::replace(&mut self.filter, Vec::new(alloc)),
            cert: mem::replace(&mut self.cert, Vec::new(alloc)),
        };
        let is_kept = self.kept.push(made).is_ok();
        self.out.keep(is_kept);
    }

    // Answers a question on the profile, if there is one.
    fn on_made(&mut self, kind: &str, mut question: Question<'_>) {
        let Some(profile) = &self.profile else {
            return self.out.fail();
        };
        match kind {
            "decide" => self.out.tell(profile.decide(&question.record())),
            "compile" => {
                let made = compile(self.out.alloc, profile);
                self.filter = self.out.tell_made(made);
            }
            "certify" => self.cert = certified(&mut self.out, profile, &self.filter),
            "follow" => self.cert = followed(&mut self.out, profile, &self.filter),
            "check" => tell_check(&mut self.out, profile, &self.filter, question.part()),
            _ => tell_agreement(&mut self.out, profile, &self.filter, &self.grid),
        }
    }
}

fn tell_parts(out: &mut Answers, profile: &Profile) {
    out.tell(format_args!("{:?}", profile.native()));
    out.tell(format_args!("{:?}", profile.machines()));
    out.tell(profile.default_word());
    for rule in profile.rules() {
        out.tell(format_args!("{rule:?}"));
    }
}

// Tells the bytes of a certificate of a filter for a profile, or why there is none, and gives them.
fn certified(out: &mut Answers, profile: &Profile, filter: &[u8]) -> Vec<u8> {
    match judge_filter(out.alloc, profile, filter) {
        Ok(Evidence::Certificate(bytes)) => {
            out.tell_bytes(&bytes);
            return bytes;
        }
        Ok(Evidence::Refuting(_found)) => out.tell("wrong"),
        Err(make_error) => out.tell(make_error),
    }
    Vec::new(out.alloc)
}

// Tells the bytes of the certificate that follows each path of the filter, or why there is none, and gives them.
fn followed(out: &mut Answers, profile: &Profile, filter: &[u8]) -> Vec<u8> {
    let Ok(program) = Program::view(filter) else {
        out.fail();
        return Vec::new(out.alloc);
    };
    let Ok(accepted) = accept(&program) else {
        out.fail();
        return Vec::new(out.alloc);
    };
    match by_paths(out.alloc, profile, &accepted) {
        Ok(bytes) => {
            out.tell_bytes(&bytes);
            bytes
        }
        Err(e) => {
            out.tell(format_args!("{e:?}"));
            Vec::new(out.alloc)
        }
    }
}

// Tells what the checker says.
fn tell_check(out: &mut Answers, profile: &Profile, filter: &[u8], digits: &str) {
    let cert = out.bytes(digits);
    match check(out.alloc, profile, filter, &cert) {
        Ok(_) => out.tell("yes"),
        Err(e) => out.tell(e),
    }
}

// Tells the first record of a grid on which a filter that the kernel accepts answers another verdict than its profile says.
fn tell_agreement(out: &mut Answers, profile: &Profile, filter: &[u8], grid: &Grid) {
    let Ok(program) = Program::view(filter) else {
        return out.fail();
    };
    match accept(&program) {
        Ok(accepted) => {
            let found = grid.first_difference(&accepted, profile);
            out.tell(format_args!("{found:?}"));
        }
        Err(refused) => out.tell(refused),
    }
}
