//! A service that serves npm's own requests.

ghost use Rattle.registry_npm.specs.Npm.{npm};
ghost use Rattle.registry_npm.specs.Queries.{npm_asks_queries};

use crate::turning::{asks_one, npm_turn};
use registry_names::{Fault, Moment};
use registry_rules::{Reply, Request};
use registry_service::{AnsweredCommand, HttpService, Service, Turned};
use registry_wire::Wanted;
use std::alloc::Global;

/// Another service, over HTTP in npm's own dialect. Everything but turns is that service's.
#[derive(Drop)]
pub struct NpmService<D: Service> {
    pub service: D,
}

impl<D: Service> Service for NpmService<D> {
    ghost answers = { λ s r o t. D.answers s.service r o t.service };

    ghost over = { λ s. D.over s.service };

    fn answer(&mut self, alloc: Global, request: &Request) -> Result<Reply, Fault> {
        self.service.answer(alloc, request)
    }

    fn answer_together(
        &mut self,
        alloc: Global,
        requests: &[Request],
        outcomes: &mut [Result<Reply, Fault>],
    ) {
        self.service.answer_together(alloc, requests, outcomes)
    }

    fn is_over(&self) -> bool {
        self.service.is_over()
    }

    fn note(&mut self, wanted: Option<&Wanted>, turned: &Turned) {
        self.service.note(wanted, turned)
    }

    fn note_command(&mut self, command: &AnsweredCommand<'_>) {
        self.service.note_command(command)
    }

    fn look_up(&mut self, alloc: Global) {
        self.service.look_up(alloc)
    }

    fn rest(&mut self) {
        self.service.rest()
    }
}

impl<D: Service> HttpService for NpmService<D> {
    ghost speaks = { npm };

    /// The turn of one of npm's own requests, or of any other as without them.
    fn turn(&mut self, alloc: Global, wanted: &Wanted, at: Moment, is_last: bool) -> Turned {
        npm_turn(alloc, &mut self.service, wanted, at, is_last)
    }

    /// It does by the registry's own routes, and where it publishes. A request of npm's own may ask
    /// queries beside its command.
    fn asks_one(&self, wanted: &Wanted) -> bool {
        asks_one(wanted)
    }

    ghost asks_queries = { npm_asks_queries };
}
